//! How the two tables of a database stand for kept rows: definitions and lemmas, and which table a row stands in.
#![tactic(auto)]

ghost use Rattle.std.specs.Prelude.{◌≡◌, ◌==◌};

use wb_base::Key;

/// Whether the rows of a kind stand in the table `sealed`, as identity answers do; those of the other kinds stand in `record`.
pub fn is_sealed(kind: u8) -> bool
    ensures { result ≡ (kind == 7) }
{
    kind == Key::SEALED
}
