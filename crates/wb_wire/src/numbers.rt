//! Numbers in text.
ghost use Rattle.std.specs.Prelude.{◌≡◌, ◌↔◌, ◌<◌, ◌^◌, ℕ, decimal, IfSome, Some, IsTrue};
ghost use Rattle.wb_model.specs.FrameTexts.{word_text};

use itoa::Buffer;
use std::str;

/// Whether two texts are the same.
pub fn is_same(a: &[u8], b: &[u8]) -> bool
    ensures { IsTrue result ↔ (a.now ≡ b.now) }
{
    a == b
}

/// The number that stands in decimal digits without a leading zero.
pub fn number_of(text: &[u8]) -> Option<u64>
    ensures found { IfSome result (λ n. text.now ≡ decimal n) }
    ensures again { (n : ℕ) → n < 2 ^ 64 → text.now ≡ decimal n → result ≡ Some n }
{
    let digits = match str::from_utf8(text) {
        Ok(digits) => digits,
        Err(_) => return None,
    };
    let number = match digits.parse::<u64>() {
        Ok(number) => number,
        Err(_) => return None,
    };
    let mut buffer = Buffer::new();
    if is_same(buffer.format(number).as_bytes(), text) {
        Some(number)
    } else {
        None
    }
}

/// The word that stands in sixteen lower-case hexadecimal digits.
pub fn word_of(text: &[u8]) -> Option<u64>
    ensures found { IfSome result (λ w. text.now ≡ word_text w) }
    ensures again { (w : ℕ) → w < 2 ^ 64 → text.now ≡ word_text w → result ≡ Some w }
{
    let mut bytes = [0u8; 8];
    match hex::decode_to_slice(text, &mut bytes) {
        Ok(()) => {}
        Err(_) => return None,
    }
    let word = u64::from_be_bytes(bytes);
    let mut again = [0u8; 16];
    match hex::encode_to_slice(word.to_be_bytes().as_slice(), &mut again) {
        Ok(()) => {}
        Err(_) => return None,
    }
    if is_same(again.as_slice(), text) {
        Some(word)
    } else {
        None
    }
}
