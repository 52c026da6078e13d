//! The deletion of one report. It takes no memory and cannot fail.
ghost use Rattle.std.specs.Prelude.{◌≡◌, ◌≢◌, ◌==◌, ℕ, None, if◌then◌else◌};
ghost use Rattle.wb_custody.specs.SealedAnswers.{answers_of};
ghost use Rattle.wb_model.specs.Changes.{Deletes};
ghost use Rattle.wb_model.specs.Host.{plain_after};
ghost use Rattle.wb_tables.specs.Kept.{place_of, plain_of};

use crate::tenancy::Tenancy;
use wb_base::Number;
use wb_custody::SealedTable;

/// Deletes the report of a number: its trail, its identity answers, its receipt, the day on which it expires and its reporter's
/// sessions go; the numbers that were drawn stay. It looks at no other report, and at each session once. It takes no memory.
pub fn delete_report(tenancy: &mut Tenancy, sealed: &mut SealedTable, number: Number)
    ensures id { (place_of tenancy.new).id ≡ (place_of tenancy.old).id }
    ensures plain { (time : ℕ) → plain_of tenancy.new ≡ plain_after time (Deletes number) (plain_of tenancy.old) }
    ensures here { (n : ℕ) → answers_of sealed.new.items (place_of tenancy.old).id n ≡ (if n == number then None else answers_of sealed.old.items (place_of tenancy.old).id n) }
    ensures others { (t n : ℕ) → t ≢ (place_of tenancy.old).id → answers_of sealed.new.items t n ≡ answers_of sealed.old.items t n }
{
    tenancy.cases.remove(number);
    sealed.remove(tenancy.configuration.tenant(), number);
    tenancy.sessions.drop_reporter(number);
}
