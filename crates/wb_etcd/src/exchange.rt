//! One exchange with a store.
ghost use Rattle.std.specs.Prelude.{◌≡◌, ◌++◌, ℕ, List, [], Some, None, IfOk, OnOk, OnErr, Err};
ghost use Rattle.std.specs.Io.KnownBytes.{Appends};
ghost use Rattle.std.specs.String.{string_bytes};
ghost use Rattle.serde_json.specs.View.{view};
ghost use Rattle.wb_base.specs.declared.faults.KeepErr.TheVariants.{Failed as StoreFailed};
ghost use Rattle.wb_transport.specs.Lines.{Line, IsLine};
ghost use Rattle.wb_etcd.specs.Answers.{IsAnswer};
ghost use Rattle.wb_transport.specs.Dials.{Dialed};
ghost use Rattle.wb_etcd.specs.Transactions.{request_text};
ghost use Rattle.wb_etcd.specs.Exchanges.{connection, exchanged, Asks};

use crate::requests::request;
use crate::responses::read_answer;
use serde_json::Value;
use std::alloc::Global;
use wb_base::{KeepErr, Memory, Text};
use wb_transport::{Dial, Link};

/// How many bytes an answer may have, its head among them.
pub const MAX_ANSWER: usize = 64 * 1024 * 1024;

// How many bytes are read at a time.
const PIECE: usize = 16 * 1024;

// Appends bytes.
fn append(bytes: &mut Vec<u8>, piece: &[u8]) -> Result<(), Memory>
    ensures { OnOk result (bytes.new.items ≡ bytes.old.items ++ piece.now) }
{
    bytes.extend_from_slice(piece)?;
    Ok(())
}

// All that a link gives until the other side closes it.
fn read_all<L: Link>(alloc: Global, link: &mut L) -> Result<Vec<u8>, KeepErr>
    ensures all { (bytes : List ℕ) → (L.end link.old).left ≡ Some bytes → IfOk result (λ answer. (answer.items ≡ bytes) × ((L.end link.new).left ≡ Some [])) }
    ensures got { (L.end link.new).got ≡ (L.end link.old).got }
    ensures count { OnOk result ((L.end link.new).count ≡ (L.end link.old).count) }
{
    let mut piece = [0; PIECE];
    let mut answer = Vec::new(alloc);
    while answer.len() < MAX_ANSWER {
        let count = link.read(&mut piece)?;
        if count == 0 {
            return Ok(answer);
        }
        append(&mut answer, &piece[..count])?;
    }
    Err(KeepErr::Failed)
}

/// Sends a request over a link, and reads the answer.
pub(crate) fn exchange<L: Link>(
    alloc: Global,
    link: &mut L,
    request: &str,
) -> Result<Value, KeepErr>
    ensures { (line : Line) → IsLine (L.end link.old) line → IfOk result (λ answer. IsAnswer line.left (view answer) × IsLine (L.end link.new) (exchanged request.now line)) }
{
    link.write_all(request.as_bytes())?;
    let bytes = read_all(alloc, link)?;
    read_answer(alloc, bytes.as_slice())
}

/// A link to the first endpoint that gives one, and the request that brings a text to a path of it. It is had before the endpoint is
/// called, so that no memory is wanted between a link and what is sent over it.
pub(crate) fn connect<D: Dial>(
    alloc: Global,
    dial: &mut D,
    endpoints: &[Text],
    path: &str,
    body: &str,
) -> Result<(D::End, String), KeepErr>
    ensures found { (x : Dialed) → (D.end dial.old).told ≡ Some x → IfOk result (λ found. (line : Line) × ((connection endpoints.now x).line ≡ Some line) × IsLine (D.End.end found.0) line) }
    ensures request { (x : Dialed) → (D.end dial.old).told ≡ Some x → IfOk result (λ found. string_bytes found.1 ≡ request_text (connection endpoints.now x).endpoint path.now body.now) }
    ensures after { (x : Dialed) → (D.end dial.old).told ≡ Some x → OnOk result ((D.end dial.new).told ≡ Some (connection endpoints.now x).after) }
    ensures none { (x : Dialed) → (D.end dial.old).told ≡ Some x → OnErr result ((D.end dial.new).told ≡ Some x) }
    ensures failed { (x : Dialed) → (D.end dial.old).told ≡ Some x → result ≡ Err StoreFailed → (connection endpoints.now x).line ≡ None }
{
    for endpoint in endpoints {
        let request = request(alloc, endpoint.as_str(), path, body)?;
        if let Ok(link) = dial.dial(endpoint.as_str()) {
            return Ok((link, request));
        }
    }
    Err(KeepErr::Failed)
}

/// Sends a text to a path of the store, and reads the answer.
pub(crate) fn ask<D: Dial>(
    alloc: Global,
    dial: &mut D,
    endpoints: &[Text],
    path: &str,
    body: &str,
) -> Result<Value, KeepErr>
    ensures asked { (x : Dialed) → (D.end dial.old).told ≡ Some x → IfOk result (λ answer. (y : Dialed) × ((D.end dial.new).told ≡ Some y) × Asks endpoints.now path.now body.now x y (view answer)) }
{
    let (mut link, request) = connect(alloc, dial, endpoints, path, body)?;
    let answer = exchange(alloc, &mut link, request.as_str())?;
    dial.close(link);
    Ok(answer)
}
