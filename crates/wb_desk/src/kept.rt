//! A host: a desk, its keeper, and the books of its turns and numbers.
ghost use Rattle.std.specs.Prelude.{◌≡◌, ◌≤◌, true, if◌then◌else◌};
ghost use Rattle.wb_model.specs.Drawn.{is_accepted as accepted};
ghost use Rattle.wb_model.specs.Commands.{fits};
ghost use Rattle.wb_model.specs.Rows.{rows_of};
ghost use Rattle.wb_tables.specs.Standing.{hosts_of};
ghost use Rattle.wb_desk.specs.Hosted.{begun};
ghost use Rattle.wb_desk.specs.Turned.{Turned};
ghost use Rattle.wb_desk.specs.Whole.{IsWholeHost};

use crate::Desk;
use crate::origin::Origin;
use crate::pass::Pass;
use std::marker::Model;
use std::sync::ledger::{Blank, Book, Ledger, Share};
use wb_base::{Keeper, Moment, Words, limits};
use wb_model::{
    Asked, Command, Told, a_host_opens_again, a_turn_is_not_answered_as_spent,
    an_accepted_submission_draws_a_number, verdicts_keep_trails_legal,
};

/// A desk and its keeper, with the book of its turns (A) and that of the numbers that it drew (B). Its type says over which desk they were
/// opened.
#[derive(Drop)]
pub struct Kept<K: Keeper, A: Origin, B: Ledger> {
    pub(crate) desk: Desk,
    pub(crate) keeper: K,
    // The turns that the desk had made when its books were opened.
    pub(crate) first: u64,
    pub(crate) turns: u64,
    pub(crate) numbers: u64,
    pub(crate) turn_book: Book<A>,
    pub(crate) number_book: Book<B>,
    // Shares with no part, which lend the books to an audit of passes.
    pub(crate) turn_mark: Share<A>,
    pub(crate) number_mark: Share<B>,
}

impl<K: Keeper, A: Origin, B: Ledger> Model for Kept<K, A, B> {
    ghost use Rattle.std.specs.Prelude.{◌≡◌};
    ghost use Rattle.wb_desk.specs.Hosted.{Hosted, IsBooked};

    ghost Value = { Hosted };

    ghost view = { λ k. record { desk = k.desk; opened = A.desk; turns = k.turns; numbers = k.numbers; faults = (K.end k.keeper).count } };

    ghost invariant = { λ k. (k.turn_book.total ≡ k.turns)
        × (k.number_book.total ≡ k.numbers)
        × (k.turn_mark.parts ≡ 0)
        × (k.turn_mark.amount ≡ 0)
        × (k.number_mark.parts ≡ 0)
        × (k.number_mark.amount ≡ 0)
        × IsBooked k.desk A.desk k.turns k.numbers (K.end k.keeper)
        × (k.first ≡ A.desk.turns)
        × ((K.end k.keeper).honest → A.honest) };
}

// Whether a submission was asked and accepted.
fn is_accepted(asked: &Asked, told: &Told) -> bool
    ensures { result ≡ accepted asked.now.command told.now }
{
    matches!(asked.command, Command::Submit { .. }) && told.status == 201
}

// What a book rises by where something counts in it.
fn one_if(counts: bool) -> u64
    ensures { result ≡ (if counts then 1 else 0) }
{
    if counts { 1 } else { 0 }
}

impl<K: Keeper, A: Origin, B: Ledger> Kept<K, A, B> {
    /// A host over new ledgers, and the pass with all their parts. Its books are opened, and hold nothing yet.
    pub fn new(
        desk: Desk,
        keeper: K,
        parts: u64,
        turns: Blank,
        numbers: Blank,
    ) -> (Kept<K, A, B>, Pass<A, B>)
        requires some { 1 ≤ parts }
        requires kept { (K.end keeper).honest → (K.end keeper).holds (rows_of (hosts_of desk).list) }
        requires desk { A.desk ≡ desk }
        requires honest { (K.end keeper).honest → A.honest }
        requires turns { (turns.name ≡ A.name) × (turns.parts ≡ A.parts) × (turns.parts ≡ parts) }
        requires numbers { (numbers.name ≡ B.name) × (numbers.parts ≡ B.parts) × (numbers.parts ≡ parts) }
        ensures host { result.0 ≡ begun desk (K.end keeper).count }
        ensures pass { result.1 ≡ record { parts = parts; turns = 0; numbers = 0 } }
    {
        let (turn_book, mut turn_share) = turns.open::<A>();
        let (number_book, mut number_share) = numbers.open::<B>();
        let turn_mark = turn_share.empty();
        let number_mark = number_share.empty();
        desk.stands();
        let first = desk.counts().turns;
        (
            Kept {
                desk,
                keeper,
                first,
                turns: 0,
                numbers: 0,
                turn_book,
                number_book,
                turn_mark,
                number_mark,
            },
            Pass {
                parts,
                turns: 0,
                numbers: 0,
                turn_share,
                number_share,
            },
        )
    }

    /// The book of turns. It takes no memory.
    pub fn book(&self) -> u64
        ensures { result ≡ self.now.turns }
    {
        self.turns
    }

    /// What holds of a host between any two turns.
    pub fn is_whole(&self)
        ensures whole { IsWholeHost self.now }
        ensures opened { self.now.opened ≡ A.desk }
    {
        a_host_opens_again();
        verdicts_keep_trails_legal();
        self.desk.stands();
    }

    /// One turn of the desk. The books and the pass rise with it.
    pub fn turn(
        &mut self,
        pass: &mut Pass<A, B>,
        asked: &Asked,
        moment: Moment,
        words: &Words,
    ) -> Told
        requires fits { fits asked.now ≡ true }
        ensures turned { Turned (record { moment = moment; words = words.now; asked = asked.now }) self.old pass.old self.new pass.new result }
    {
        an_accepted_submission_draws_a_number();
        a_turn_is_not_answered_as_spent();
        self.desk.stands();
        self.turn_book.audit(&mut pass.turn_share);
        self.number_book.audit(&mut pass.number_share);
        let made = one_if(self.first + self.turns < limits::TURNS);
        let told = self.desk.step(&mut self.keeper, asked, moment, words);
        let drawn = one_if(is_accepted(asked, &told));
        self.turn_book.add(&mut pass.turn_share, made);
        self.number_book.add(&mut pass.number_share, drawn);
        self.turns += made;
        pass.turns += made;
        self.numbers += drawn;
        pass.numbers += drawn;
        told
    }
}
