//! The first line of a frame, and of a setup's.
ghost use Rattle.std.specs.Prelude.{◌≡◌, ◌<◌, ◌^◌, ◌++◌, ◌∷◌, ℕ, List, decimal, IfSome, IfNone, IsSomeAnd};
ghost use Rattle.wb_model.specs.FrameTexts.{word_text};
ghost use Rattle.wb_wire.specs.FrameReading.{IsFrameLine};
ghost use Rattle.wb_wire.specs.SetupReading.{IsSetupLine};
ghost use Rattle.wb_wire.specs.TextReading.{Lacks};

use crate::numbers::{is_same, number_of, word_of};
use wb_base::{Moment, Words, limits};

/// What the first line of a frame, or of a setup's, says beside how many bytes follow.
pub trait FirstLine: Drop {
    /// This is its line, after which so many bytes follow.
    ghost is_line: { Self → ℕ → List ℕ → Type 0 };

    /// Reads the line, without its line feed: what it says, and how many bytes follow.
    fn read(line: &[u8]) -> Option<(Self, usize)>
    where
        Self: Sized,
        ensures found { IfSome result (λ said. is_line said.0 said.1 line.now) }
        ensures only { (head : Self) (size : ℕ) → is_line head size line.now → IsSomeAnd result (λ said. said.1 ≡ size) };
}

/// What a frame's line says: its moment and its words.
#[derive(Clone, Copy)]
pub struct FrameLine {
    pub moment: Moment,
    pub words: Words,
}

/// A setup's line says nothing else.
#[derive(Clone, Copy)]
pub struct SetupLine;

// The parts before and after the first space.
fn at_space(bytes: &[u8]) -> Option<(&[u8], &[u8])>
    ensures found { IfSome result (λ x. bytes.now ≡ x.0.now ++ 32 ∷ x.1.now) }
    ensures lacks { IfSome result (λ x. Lacks 32 x.0.now) }
    ensures none { IfNone result (Lacks 32 bytes.now) }
{
    for (at, byte) in bytes.iter().enumerate() {
        if *byte == 32 {
            return Some((&bytes[..at], &bytes[at + 1..]));
        }
    }
    None
}

// A number, a space and what follows.
fn number_item(bytes: &[u8]) -> Option<(u64, &[u8])>
    ensures found { IfSome result (λ x. bytes.now ≡ decimal x.0 ++ 32 ∷ x.1.now) }
    ensures again { (n : ℕ) (r : List ℕ) → n < 2 ^ 64 → bytes.now ≡ decimal n ++ 32 ∷ r → IsSomeAnd result (λ x. (x.0 ≡ n) × (x.1.now ≡ r)) }
{
    let (front, rest) = match at_space(bytes) {
        Some(parts) => parts,
        None => return None,
    };
    match number_of(front) {
        Some(number) => Some((number, rest)),
        None => None,
    }
}

// A word, a space and what follows.
fn word_item(bytes: &[u8]) -> Option<(u64, &[u8])>
    ensures found { IfSome result (λ x. bytes.now ≡ word_text x.0 ++ 32 ∷ x.1.now) }
    ensures again { (w : ℕ) (r : List ℕ) → w < 2 ^ 64 → bytes.now ≡ word_text w ++ 32 ∷ r → IsSomeAnd result (λ x. (x.0 ≡ w) × (x.1.now ≡ r)) }
{
    let (front, rest) = match at_space(bytes) {
        Some(parts) => parts,
        None => return None,
    };
    match word_of(front) {
        Some(word) => Some((word, rest)),
        None => None,
    }
}

impl FirstLine for FrameLine {
    ghost is_line = { IsFrameLine };

    fn read(line: &[u8]) -> Option<(FrameLine, usize)> {
        if line.is_empty() || line[0] != b'@' {
            return None;
        }
        let (seconds, rest) = match number_item(&line[1..]) {
            Some(item) => item,
            None => return None,
        };
        let (first, rest) = match word_item(rest) {
            Some(item) => item,
            None => return None,
        };
        let (second, rest) = match word_item(rest) {
            Some(item) => item,
            None => return None,
        };
        let (third, rest) = match word_item(rest) {
            Some(item) => item,
            None => return None,
        };
        let (fourth, rest) = match word_item(rest) {
            Some(item) => item,
            None => return None,
        };
        let size = match number_of(rest) {
            Some(size) => size,
            None => return None,
        };
        let moment = match Moment::try_new(seconds) {
            Some(moment) => moment,
            None => return None,
        };
        if size > limits::FRAME_BYTES as u64 {
            return None;
        }
        let words = Words([first, second, third, fourth]);
        Some((FrameLine { moment, words }, size as usize))
    }
}

impl FirstLine for SetupLine {
    ghost is_line = { λ _ size line. IsSetupLine size line };

    fn read(line: &[u8]) -> Option<(SetupLine, usize)> {
        let (mark, rest) = match at_space(line) {
            Some(parts) => parts,
            None => return None,
        };
        if !is_same(mark, b"@setup") {
            return None;
        }
        let size = match number_of(rest) {
            Some(size) => size,
            None => return None,
        };
        if size > limits::SETUP_BYTES as u64 {
            return None;
        }
        Some((SetupLine, size as usize))
    }
}
