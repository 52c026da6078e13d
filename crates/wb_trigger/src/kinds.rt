//! What is wrong with an answer to a field that is shown.
ghost use Rattle.std.specs.Prelude.{◌≡◌, ◌<◌, IfOk, IfSome, option_map};
ghost use Rattle.std.specs.List.{list_any, list_all};
ghost use Rattle.wb_base.specs.AnswerList.{is_text};
ghost use Rattle.wb_base.specs.FormFields.{is_option};
ghost use Rattle.wb_base.specs.AnswerFaults.{has_repeat as has_repeat_in, options_fault as options_fault_of, decoded as decoded_of, file_fault as file_fault_of, kind_fault as kind_fault_of};

use base64::DecodeAllocError;
use base64::engine::general_purpose::STANDARD;
use std::alloc::Global;
use wb_base::{AnswerFault, Choice, FieldKind, Given, Memory, Text};
use wb_terms::read_date;

/// The greatest whole number either way.
const MAX_WHOLE: u64 = 1_000_000_000_000;
/// The greatest length of a file's name in bytes.
const MAX_NAME: usize = 128;
/// The greatest size of a file in bytes.
const MAX_FILE: usize = 150_000;

/// Whether one of the options has the id.
fn has_option(options: &[Choice], id: &Text) -> bool
    ensures { result ≡ list_any (is_option id.now) options.now }
{
    for option in options {
        if option.id == *id {
            return true;
        }
    }
    false
}

/// Whether each text is the id of one of the options.
fn has_options(options: &[Choice], texts: &[Text]) -> bool
    ensures { result ≡ list_all (λ t. list_any (is_option t) options.now) texts.now }
{
    for text in texts {
        if !has_option(options, text) {
            return false;
        }
    }
    true
}

/// Whether the text is among the texts.
fn has_text(texts: &[Text], text: &Text) -> bool
    ensures { result ≡ list_any (λ u. is_text u text.now) texts.now }
{
    for other in texts {
        if *other == *text {
            return true;
        }
    }
    false
}

/// Whether a text comes twice.
fn has_repeat(texts: &[Text]) -> bool
    ensures { result ≡ has_repeat_in texts.now }
{
    for (at, text) in texts.iter().enumerate() {
        if has_text(&texts[at + 1..], text) {
            return true;
        }
    }
    false
}

/// The fault of a list of options.
fn options_fault(options: &[Choice], texts: &[Text]) -> Option<u8>
    ensures value { result ≡ options_fault_of options.now texts.now }
    ensures code { IfSome result (λ code. code < AnswerFault.MEMORY) }
{
    if texts.is_empty() || has_repeat(texts) {
        return Some(AnswerFault::WRONG_KIND);
    }
    (!has_options(options, texts)).then_some(AnswerFault::NO_SUCH_OPTION)
}

/// The bytes that a text in base64 (RFC 4648, section 4) stands for.
#[tactic(auto, unfolding(wb_base::specs::AnswerFaults::decoded))]
fn decoded(alloc: Global, content: &[u8]) -> Result<Option<Vec<u8>>, Memory>
    ensures { IfOk result (λ o. option_map (λ v. v.items) o ≡ decoded_of content.now) }
{
    match STANDARD.decode(alloc, content) {
        Ok(bytes) => Ok(Some(bytes)),
        Err(DecodeAllocError::OutOfMemory) => Err(Memory),
        Err(DecodeAllocError::DecodeError(_)) => Ok(None),
    }
}

/// The fault of a file.
fn file_fault(alloc: Global, name: &Text, content: &Text) -> Result<Option<u8>, Memory>
    ensures value { IfOk result (λ o. o ≡ file_fault_of name.now content.now) }
    ensures code { IfOk result (λ o. IfSome o (λ code. code < AnswerFault.MEMORY)) }
{
    if name.len() < 1 || MAX_NAME < name.len() {
        return Ok(Some(AnswerFault::WRONG_KIND));
    }
    match decoded(alloc, content.as_bytes())? {
        None => Ok(Some(AnswerFault::WRONG_KIND)),
        Some(bytes) => Ok((MAX_FILE < bytes.len()).then_some(AnswerFault::TOO_LONG)),
    }
}

/// The fault of an answer to a field of a kind.
pub fn kind_fault(alloc: Global, kind: &FieldKind, given: &Given) -> Result<Option<u8>, Memory>
    ensures value { IfOk result (λ o. o ≡ kind_fault_of kind.now given.now) }
    ensures code { IfOk result (λ o. IfSome o (λ code. code < AnswerFault.MEMORY)) }
{
    let fault = match (kind, given) {
        (FieldKind::Text { max }, Given::Text(text)) => ((*max as usize) < text.len()).then_some(
            AnswerFault::TOO_LONG,
        ),
        (FieldKind::Choice { options }, Given::Text(text)) => (!has_option(
            options.as_slice(),
            text,
        )).then_some(AnswerFault::NO_SUCH_OPTION),
        (FieldKind::Multi { options }, Given::List(texts)) => options_fault(
            options.as_slice(),
            texts.as_slice(),
        ),
        (FieldKind::Date, Given::Text(text)) => read_date(text.as_bytes())
            .is_none()
            .then_some(AnswerFault::WRONG_KIND),
        (FieldKind::Check, Given::Flag(_)) => None,
        (FieldKind::Whole, Given::Whole(whole)) => (MAX_WHOLE < whole.unsigned_abs()).then_some(
            AnswerFault::WRONG_KIND,
        ),
        (FieldKind::File, Given::File { name, content }) => file_fault(alloc, name, content)?,
        _ => Some(AnswerFault::WRONG_KIND),
    };
    Ok(fault)
}
