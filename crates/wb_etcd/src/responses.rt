//! What a store answers, as a whole response over HTTP/1.1 (RFC 9112) whose body is JSON.
ghost use Rattle.std.specs.Prelude.{◌≡◌, ◌≤◌, length, drop, IfOk, IfSome};
ghost use Rattle.serde_json.specs.View.{view};
ghost use Rattle.wb_etcd.specs.Answers.{HasGoodHead, IsWholeBody, IsResponse, IsAnswer};

use http1::Limits;
use http1::decode::{Decoded, Decoder};
use http1::fields::KnownFields;
use http1::framing::{Framing, MethodKind, response_framing};
use httparse::Status;
use httparse::spans::{EMPTY_HEADER_SPAN, HeaderSpan, parse_response};
use serde_json::Value;
use std::alloc::Global;
use wb_base::{KeepErr, Memory};

/// How many fields the head of an answer may have, and how many its trailers.
const FIELDS: usize = 64;

// How much of a chunked body may be no content.
const LIMITS: Limits = Limits {
    max_head_len: 16_384,
    max_extensions_len: 16_384,
    max_trailers_len: 16_384,
};

// Where the head of an answer of status 200 ends, and how its body is framed.
fn read_head(bytes: &[u8], fields: &mut [HeaderSpan]) -> Option<(usize, Framing)>
    ensures head { IfSome result (λ found. HasGoodHead bytes.now found.1 (drop found.0 bytes.now)) }
    ensures within { IfSome result (λ found. found.0 ≤ length bytes.now) }
{
    let Ok(Status::Complete(head)) = parse_response(bytes, fields) else {
        return None;
    };
    if head.code != 200 {
        return None;
    }
    let known = KnownFields::from_spans(bytes, &fields[..head.headers]);
    match response_framing(MethodKind::Other, 200, head.version, &known) {
        Ok(Framing::UntilClose) | Err(_) => None,
        Ok(framing) => Some((head.len, framing)),
    }
}

// The bytes behind a place.
fn behind(bytes: &[u8], at: usize) -> &[u8]
    requires { at ≤ length bytes.now }
    ensures { result.now ≡ drop at bytes.now }
{
    &bytes[at..]
}

// The content of a body that is whole.
fn read_body(
    alloc: Global,
    framing: Framing,
    bytes: &[u8],
    trailers: &mut [HeaderSpan],
) -> Result<Option<Vec<u8>>, Memory>
    ensures { IfOk result (λ read. IfSome read (λ content. IsWholeBody framing bytes.now content.items)) }
{
    let mut decoder = Decoder::new(framing, &LIMITS);
    let mut content = Vec::new(alloc);
    let mut at = 0;
    // Each piece has one byte at least.
    for _ in 0..=bytes.len() {
        let rest = behind(bytes, at);
        match decoder.decode(rest, trailers) {
            Ok(Decoded::Data(piece)) => {
                content.extend_from_slice(piece.of(rest))?;
                at += piece.end;
            }
            Ok(Decoded::End { len, .. }) if len == rest.len() => return Ok(Some(content)),
            _ => return Ok(None),
        }
    }
    Ok(None)
}

// The content of a whole response of status 200.
fn read_response(alloc: Global, bytes: &[u8]) -> Result<Option<Vec<u8>>, Memory>
    ensures { IfOk result (λ read. IfSome read (λ content. IsResponse bytes.now content.items)) }
{
    let mut fields = [EMPTY_HEADER_SPAN; FIELDS];
    let Some((len, framing)) = read_head(bytes, &mut fields) else {
        return Ok(None);
    };
    read_body(alloc, framing, behind(bytes, len), &mut fields)
}

/// The answer that bytes are.
pub(crate) fn read_answer(alloc: Global, bytes: &[u8]) -> Result<Value, KeepErr>
    ensures { IfOk result (λ answer. IsAnswer bytes.now (view answer)) }
{
    let Some(content) = read_response(alloc, bytes)? else {
        return Err(KeepErr::Failed);
    };
    match Value::from_slice(alloc, content.as_slice()) {
        Ok(answer) => Ok(answer),
        Err(error) if error.is_memory() => Err(KeepErr::Memory),
        Err(_) => Err(KeepErr::Failed),
    }
}
