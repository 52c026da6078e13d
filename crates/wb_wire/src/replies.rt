//! The bytes of replies that need no memory.
ghost use Rattle.std.specs.Prelude.{◌≡◌, ◌≤◌, ◌+◌, ◌++◌, length, codes, unwrap_or};
ghost use Rattle.http.specs.StatusCode.{reason_phrase, status_text};
ghost use Rattle.std.specs.List.{flat_map};
ghost use Rattle.wb_model.specs.Replies.{head_text, output_line, allow_line, close_line};
ghost use Rattle.wb_model.specs.Routes.{methods as methods_by, method_names};
ghost use Rattle.wb_wire.specs.Paths.{methods_of, more_name};

use crate::paths::{Allowed, row};
use crate::{Head, Line, PathNo};
use http::StatusCode;
use itoa::Buffer;

// The methods that a path allows.
fn methods(path: PathNo) -> &'static [Allowed]
    ensures methods { methods_of result.now ≡ methods_by path }
    ensures short { length (method_names (methods_of result.now)) ≤ 12 }
{
    match row(path) {
        Some(row) => row.methods,
        None => &[],
    }
}

// The names of more methods, each after a comma and a space.
fn put_more(head: &mut Head, methods: &[Allowed])
    requires { length head.old + length (flat_map more_name (methods_of methods.now)) ≤ 256 }
    ensures { head.new ≡ head.old ++ flat_map more_name (methods_of methods.now) }
{
    for allowed in methods {
        head.put(b", ");
        head.put(allowed.verb.method().as_str().as_bytes());
    }
}

// The names of methods, parted by a comma and a space.
fn put_methods(head: &mut Head, methods: &[Allowed])
    requires { length head.old + length (method_names (methods_of methods.now)) ≤ 256 }
    ensures { head.new ≡ head.old ++ method_names (methods_of methods.now) }
{
    if let [first, more @ ..] = methods {
        head.put(first.verb.method().as_str().as_bytes());
        put_more(head, more);
    }
}

// The phrase of a status code (RFC 9110, section 15).
fn phrase(status: u16) -> &'static str
    ensures text { result.now ≡ unwrap_or (reason_phrase status) (codes "<unknown status code>") }
    ensures short { length result.now ≤ 31 }
{
    match StatusCode::from_u16(status) {
        Ok(code) => match code.canonical_reason() {
            Some(phrase) => phrase,
            None => "<unknown status code>",
        },
        Err(_) => "<unknown status code>",
    }
}

// The status code and its phrase.
fn put_status(head: &mut Head, status: u16)
    requires { length head.old ≤ 9 }
    ensures text { head.new ≡ head.old ++ status_text status }
    ensures short { length head.new ≤ length head.old + 37 }
{
    let mut digits = Buffer::new();
    head.put(digits.format(status).as_bytes());
    head.put(b" ");
    head.put(phrase(status).as_bytes());
}

// The methods that the path has, where they are asked for.
fn put_allow(head: &mut Head, allow: Option<PathNo>)
    requires { length head.old ≤ 200 }
    ensures text { head.new ≡ head.old ++ allow_line allow }
    ensures short { length head.new ≤ length head.old + 21 }
{
    match allow {
        Some(path) => {
            head.put(b"Allow: ");
            put_methods(head, methods(path));
            head.put(b"\r\n");
        }
        None => {}
    }
}

// Whether the connection closes.
fn put_close(head: &mut Head, close: bool)
    requires { length head.old ≤ 200 }
    ensures text { head.new ≡ head.old ++ close_line close }
    ensures short { length head.new ≤ length head.old + 19 }
{
    if close {
        head.put(b"Connection: close\r\n");
    }
}

#[tactic(auto, unfolding(wb_model::specs::Replies::head_text))]
/// The head of a reply (RFC 9112, section 4) with a JSON body of so many bytes: of a status, with the methods of a path
/// where one is named, and with the closing of the connection. It takes no memory.
pub fn reply_head(status: u16, allow: Option<PathNo>, length: usize, close: bool) -> Head
    ensures { result ≡ head_text status allow length close }
{
    let mut digits = Buffer::new();
    let mut head = Head::new();
    head.put(b"HTTP/1.1 ");
    put_status(&mut head, status);
    head.put(b"\r\nContent-Type: application/json\r\nCache-Control: no-store\r\nContent-Length: ");
    head.put(digits.format(length).as_bytes());
    head.put(b"\r\n");
    put_allow(&mut head, allow);
    put_close(&mut head, close);
    head.put(b"\r\n");
    head
}

#[tactic(auto, unfolding(wb_model::specs::Replies::output_line))]
/// The line that a script's output has before a reply of so many bytes. It takes no memory.
pub fn reply_line(status: u16, length: usize) -> Line
    ensures { result ≡ output_line status length }
{
    let mut digits = Buffer::new();
    let mut line = Line::new();
    line.put(b"@");
    line.put(digits.format(status).as_bytes());
    line.put(b" ");
    line.put(digits.format(length).as_bytes());
    line.put(b"\n");
    line
}
