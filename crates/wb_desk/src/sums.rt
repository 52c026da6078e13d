//! What a host's books show of the passes that are handed in.
ghost use Rattle.std.specs.Prelude.{◌≡◌, ◌+◌, ◌≤◌};
ghost use Rattle.wb_desk.specs.Hosted.{parts_of, turns_of, numbers_drawn};

use crate::pass::Pass;
use crate::tally::Tally;
use std::sync::ledger::{Book, Ledger, Share};

// Adds up the shares of passes. With what the marks hold they are never above the books, and are the books where no part is missing.
pub(crate) fn sum_shares<A: Ledger, B: Ledger>(
    turns: &mut Book<A>,
    numbers: &mut Book<B>,
    turn_mark: &mut Share<A>,
    number_mark: &mut Share<B>,
    passes: &mut [Pass<A, B>],
) -> Tally
    requires { (turns.old.total ≤ 1_000_000_000_000_000) × (numbers.old.total ≤ 1_000_000_000_000_000) }
    ensures turns { (result.turns ≡ turns_of passes.old) × (turns.new.total ≡ turns.old.total) }
    ensures numbers { (result.numbers ≡ numbers_drawn passes.old) × (numbers.new.total ≡ numbers.old.total) }
    ensures passes { passes.new ≡ passes.old }
    ensures marks { (turn_mark.new.parts ≡ turn_mark.old.parts) × (turn_mark.new.amount ≡ turn_mark.old.amount) × (number_mark.new.parts ≡ number_mark.old.parts) × (number_mark.new.amount ≡ number_mark.old.amount) }
    ensures below { (turn_mark.old.amount + turns_of passes.old ≤ turns.old.total) × (number_mark.old.amount + numbers_drawn passes.old ≤ numbers.old.total) }
    ensures all_turns { turn_mark.old.parts + parts_of passes.old ≡ A.parts → turn_mark.old.amount + turns_of passes.old ≡ turns.old.total }
    ensures all_numbers { number_mark.old.parts + parts_of passes.old ≡ B.parts → number_mark.old.amount + numbers_drawn passes.old ≡ numbers.old.total }
{
    turns.audit(turn_mark);
    numbers.audit(number_mark);
    match passes.split_first_mut() {
        None => Tally {
            turns: 0,
            numbers: 0,
        },
        Some((pass, rest)) => {
            pass.turn_share.give(turn_mark, pass.parts, pass.turns);
            pass.number_share
                .give(number_mark, pass.parts, pass.numbers);
            let sum = sum_shares(turns, numbers, turn_mark, number_mark, rest);
            turn_mark.give(&mut pass.turn_share, pass.parts, pass.turns);
            number_mark.give(&mut pass.number_share, pass.parts, pass.numbers);
            Tally {
                turns: pass.turns + sum.turns,
                numbers: pass.numbers + sum.numbers,
            }
        }
    }
}
