//! Passes: parts of a host's two ledgers, with the shares that they hold.
ghost use Rattle.std.specs.Prelude.{◌≡◌, ◌+◌, ◌≤◌};
ghost use Rattle.wb_desk.specs.Hosted.{fresh};

use std::marker::Model;
use std::sync::ledger::{Ledger, Share};

/// Parts of a host's two ledgers, and a share of each of its books: that of its turns (A) and that of its numbers (B).
#[derive(Drop)]
pub struct Pass<A: Ledger, B: Ledger> {
    pub(crate) parts: u64,
    pub(crate) turns: u64,
    pub(crate) numbers: u64,
    pub(crate) turn_share: Share<A>,
    pub(crate) number_share: Share<B>,
}

impl<A: Ledger, B: Ledger> Model for Pass<A, B> {
    ghost use Rattle.std.specs.Prelude.{◌≡◌, ◌<◌};
    ghost use Rattle.wb_desk.specs.Hosted.{Hand};

    ghost Value = { Hand };

    ghost view = { λ p. record { parts = p.parts; turns = p.turns; numbers = p.numbers } };

    ghost invariant = { λ p. (0 < p.parts) × (p.turn_share.parts ≡ p.parts) × (p.number_share.parts ≡ p.parts) × (p.turn_share.amount ≡ p.turns) × (p.number_share.amount ≡ p.numbers) };
}

impl<A: Ledger, B: Ledger> Pass<A, B> {
    /// A pass of the same host with one of this one's parts, whose shares are 0.
    pub fn split(&mut self) -> Pass<A, B>
        requires { 2 ≤ self.old.parts }
        ensures given { result ≡ fresh }
        ensures left { self.new.parts + 1 ≡ self.old.parts }
        ensures turns { self.new.turns ≡ self.old.turns }
        ensures numbers { self.new.numbers ≡ self.old.numbers }
    {
        self.parts -= 1;
        let turn_share = self.turn_share.split_off(1, 0);
        let number_share = self.number_share.split_off(1, 0);
        Pass {
            parts: 1,
            turns: 0,
            numbers: 0,
            turn_share,
            number_share,
        }
    }

    /// How many parts of its host's ledgers it has.
    pub fn parts(&self) -> u64
        ensures { result ≡ self.now.parts }
    {
        self.parts
    }

    /// In how many turns it took part.
    pub fn turns(&self) -> u64
        ensures { result ≡ self.now.turns }
    {
        self.turns
    }

    /// How many numbers were drawn in them.
    pub fn numbers(&self) -> u64
        ensures { result ≡ self.now.numbers }
    {
        self.numbers
    }
}
