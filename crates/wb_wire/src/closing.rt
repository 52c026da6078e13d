//! Whether a request asks for the closing of its connection (RFC 9112, section 9.6).
ghost use Rattle.std.specs.Prelude.{◌≡◌, length, map, reverse, All};
ghost use Rattle.httparse.specs.Grammar.{skip_ows};
ghost use Rattle.httparse.specs.Spans.{header_bytes, IsHeaderWithin};
ghost use Rattle.wb_model.specs.Heads.{is_close as close_test, says_close as close_said, closes_by};

use crate::cuts::cut;
use crate::fields::has_name;
use httparse::spans::HeaderSpan;

// The bytes without spaces and tabs at the front.
fn after_spaces(mut bytes: &[u8]) -> &[u8]
    ensures { result.now ≡ skip_ows bytes.entry.now }
{
    while let [b' ' | b'\t', rest @ ..] = bytes {
        bytes = rest;
    }
    bytes
}

// The bytes without spaces and tabs at the end.
fn before_spaces(mut bytes: &[u8]) -> &[u8]
    ensures { result.now ≡ reverse (skip_ows (reverse bytes.entry.now)) }
{
    while let [front @ .., b' ' | b'\t'] = bytes {
        bytes = front;
    }
    bytes
}

// Whether a member of the list is `close`, in any case.
#[tactic(auto, unfolding(httparse::specs::Grammar::trim_ows))]
fn is_close(member: &[u8]) -> bool
    ensures { result ≡ close_test member.now }
{
    before_spaces(after_spaces(member)).eq_ignore_ascii_case(b"close")
}

// Whether a list has the member `close`.
fn says_close(value: &[u8]) -> bool
    ensures { result ≡ close_said value.now }
{
    let mut left = Some(value);
    while let Some(list) = left {
        let (member, more) = cut(list, b',');
        if is_close(member) {
            return true;
        }
        left = more;
    }
    false
}

/// Whether the connection closes after a request of this version (its minor number) with these fields.
pub fn closes(minor: u8, bytes: &[u8], fields: &[HeaderSpan]) -> bool
    requires { All (IsHeaderWithin (length bytes.now)) fields.now }
    ensures { result ≡ closes_by minor (map (header_bytes bytes.now) fields.now) }
{
    if minor == 0 {
        return true;
    }
    for field in fields {
        if has_name(bytes, field, b"connection") && says_close(field.value.of(bytes)) {
            return true;
        }
    }
    false
}
