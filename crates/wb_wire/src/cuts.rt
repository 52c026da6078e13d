//! Bytes cut at a mark.
ghost use Rattle.std.specs.Prelude.{◌≡◌, ◌==◌, ◌<◌, ◌∷◌, length, position, IfSome};
ghost use Rattle.wb_wire.specs.Cuts.{cut_at, cut_if};

// The place of the first mark.
fn place(bytes: &[u8], mark: u8) -> Option<usize>
    ensures { result ≡ position (λ c. c == mark) bytes.now }
{
    bytes.iter().position(|c| *c == mark)
}

/// The part before the first mark, and what comes after it, where there is a mark.
pub fn cut(bytes: &[u8], mark: u8) -> (&[u8], Option<&[u8]>)
    ensures parts { cut_at mark bytes.now ≡ result.0.now ∷ cut_if mark result.1 }
    ensures shorter { IfSome result.1 (λ more. length more.now < length bytes.now) }
{
    match place(bytes, mark) {
        Some(at) => (&bytes[..at], Some(&bytes[at + 1..])),
        None => (bytes, None),
    }
}
