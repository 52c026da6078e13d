//! The keys under which a store has rows.
ghost use Rattle.std.specs.Prelude.{◌≡◌, ◌++◌, ◌<◌, ◌≤◌, List, ℕ, IfOk, OnOk, IfSome};
ghost use Rattle.std.specs.Ordering.{nat_cmp};
ghost use Rattle.std.specs.Cmp.Lexicographic.{slice_cmp};
ghost use Rattle.wb_base.specs.Secrets.{last_digits};
ghost use Rattle.wb_base.specs.declared.rows.Key.{Key as RowKey};
ghost use Rattle.wb_base.specs.KeptRows.{key_cmp};
ghost use Rattle.wb_etcd.specs.KeyTexts.{IsKey, IsRange, part, trunk_text, key_text as text_of, holder_text, all_rows as rows_of, all_under as under};

use std::alloc::Global;
use std::str;
use wb_base::{Key, Memory};

/// The keys of rows are texts in the order of the rows, so a range of texts is a range of rows.
pub fn key_texts_are_in_order()
    ensures { (prefix : List ℕ) (k m : RowKey) → IsKey k → IsKey m → slice_cmp nat_cmp (text_of prefix k) (text_of prefix m) ≡ key_cmp k m }
{}

// Appends so many of the last decimal digits of a number.
#[tactic(auto, using(crate::proofs::Orders::last_digits_by_tens))]
fn push_digits(text: &mut Vec<u8>, width: u32, number: u32) -> Result<(), Memory>
    ensures { OnOk result (text.new.items ≡ text.old.items ++ last_digits width number) }
{
    if width == 0 {
        return Ok(());
    }
    push_digits(text, width - 1, number / 10)?;
    text.push(b'0' + (number % 10) as u8)?;
    Ok(())
}

// Appends a slash and so many digits of a number.
#[tactic(auto, unfolding(crate::specs::KeyTexts::part))]
fn push_part(text: &mut Vec<u8>, width: u32, number: u32) -> Result<(), Memory>
    ensures { OnOk result (text.new.items ≡ text.old.items ++ part width number) }
{
    text.push(b'/')?;
    push_digits(text, width, number)
}

// Under what all rows of one kind, tenant and number stand.
#[tactic(auto, unfolding(crate::specs::KeyTexts::trunk_text))]
fn trunk(alloc: Global, prefix: &[u8], kind: u8, tenant: u32, a: u32) -> Result<Vec<u8>, Memory>
    ensures { IfOk result (λ text. text.items ≡ trunk_text prefix.now kind tenant a) }
{
    let mut text = Vec::from_slice(alloc, prefix)?;
    push_part(&mut text, 3, kind.into())?;
    push_part(&mut text, 10, tenant)?;
    push_part(&mut text, 10, a)?;
    Ok(text)
}

/// The key of a row.
#[tactic(auto, unfolding(crate::specs::KeyTexts::key_text))]
pub(crate) fn key_text(alloc: Global, prefix: &[u8], key: Key) -> Result<Vec<u8>, Memory>
    ensures { IfOk result (λ text. text.items ≡ text_of prefix.now key) }
{
    let mut text = trunk(alloc, prefix, key.kind, key.tenant, key.a)?;
    push_part(&mut text, 10, key.b)?;
    Ok(text)
}

/// The key of what tells which host writes.
#[tactic(auto, unfolding(crate::specs::KeyTexts::holder_text))]
pub(crate) fn holder_key(alloc: Global, prefix: &[u8]) -> Result<Vec<u8>, Memory>
    ensures { IfOk result (λ text. text.items ≡ holder_text prefix.now) }
{
    let mut text = Vec::from_slice(alloc, prefix)?;
    text.extend_from_slice(b"/holder")?;
    Ok(text)
}

/// Keys from the first on and below the second.
#[derive(Drop)]
pub(crate) struct KeyRange {
    /// The first key.
    pub(crate) from: Vec<u8>,
    /// The key after the last.
    pub(crate) below: Vec<u8>,
}

// The range between two ends of a text.
fn range_of(alloc: Global, text: &[u8], from: &[u8], below: &[u8]) -> Result<KeyRange, Memory>
    ensures { IfOk result (λ range. IsRange range (record { from = text.now ++ from.now; below = text.now ++ below.now })) }
{
    let mut first = Vec::from_slice(alloc, text)?;
    let mut last = Vec::from_slice(alloc, text)?;
    first.extend_from_slice(from)?;
    last.extend_from_slice(below)?;
    Ok(KeyRange {
        from: first,
        below: last,
    })
}

/// The keys of all rows.
#[tactic(auto, unfolding(crate::specs::KeyTexts::all_rows))]
pub(crate) fn all_rows(alloc: Global, prefix: &[u8]) -> Result<KeyRange, Memory>
    ensures { IfOk result (λ range. IsRange range (rows_of prefix.now)) }
{
    range_of(alloc, prefix, b"/0", b"/:")
}

/// The keys of all rows of one kind, tenant and number.
#[tactic(auto, unfolding(crate::specs::KeyTexts::all_under))]
pub(crate) fn all_under(
    alloc: Global,
    prefix: &[u8],
    kind: u8,
    tenant: u32,
    a: u32,
) -> Result<KeyRange, Memory>
    ensures { IfOk result (λ range. IsRange range (under (trunk_text prefix.now kind tenant a))) }
{
    let text = trunk(alloc, prefix, kind, tenant, a)?;
    range_of(alloc, text.as_slice(), b"/", b"0")
}

// The number in a part of a text, where it is one.
fn number_in(text: &[u8], from: usize, to: usize) -> Option<u32>
    requires { from ≤ to }
{
    let digits = str::from_utf8(text.get(from..to)?).ok()?;
    digits.parse().ok()
}

// The key whose parts stand at their places.
fn key_at(parts: &[u8]) -> Option<Key> {
    let kind = number_in(parts, 1, 4)?;
    if 255 < kind {
        return None;
    }
    Some(Key {
        kind: kind as u8,
        tenant: number_in(parts, 5, 15)?,
        a: number_in(parts, 16, 26)?,
        b: number_in(parts, 27, 37)?,
    })
}

/// The key of a row that a text is.
pub(crate) fn read_key(alloc: Global, prefix: &[u8], text: &[u8]) -> Result<Option<Key>, Memory>
    ensures { IfOk result (λ read. IfSome read (λ key. text.now ≡ text_of prefix.now key)) }
{
    let Some(parts) = text.get(prefix.len()..) else {
        return Ok(None);
    };
    let Some(key) = key_at(parts) else {
        return Ok(None);
    };
    let again = key_text(alloc, prefix, key)?;
    Ok(if again.as_slice() == text {
        Some(key)
    } else {
        None
    })
}
