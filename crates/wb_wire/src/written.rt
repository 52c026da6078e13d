//! Text in place: the head of a reply, and a line of a script's output.
ghost use Rattle.std.specs.Prelude.{◌≡◌, ◌≤◌, ◌+◌, ◌++◌, [], length};

use std::marker::Model;

/// Text of at most N bytes, in place, seen as its bytes.
#[derive(Drop)]
pub struct Written<const N: usize> {
    bytes: [u8; N],
    used: usize,
}

/// The head of a reply (RFC 9112, section 4), with the empty line after it.
pub type Head = Written<256>;

/// The line that a script's output has before each reply, with its line feed.
pub type Line = Written<32>;

impl<const N: usize> Model for Written<N> {
    ghost use Rattle.std.specs.Prelude.{◌≤◌, ℕ, List, take};

    ghost Value = { List ℕ };

    ghost view = { λ w. take w.used w.bytes };

    ghost invariant = { λ w. w.used ≤ N };
}

impl<const N: usize> Written<N> {
    /// No text.
    pub fn new() -> Written<N>
        ensures { result ≡ [] }
    {
        Written {
            bytes: [0; N],
            used: 0,
        }
    }

    /// Puts a text that fits at the end.
    pub fn put(&mut self, text: &[u8])
        requires { length self.old + length text.now ≤ N }
        ensures { self.new ≡ self.old ++ text.now }
    {
        let end = self.used + text.len();
        let bytes = &mut self.bytes[..];
        bytes[self.used..end].copy_from_slice(text);
        self.used = end;
    }

    /// Its bytes.
    pub fn as_bytes(&self) -> &[u8]
        ensures { result.now ≡ self.now }
    {
        &self.bytes[..self.used]
    }
}
