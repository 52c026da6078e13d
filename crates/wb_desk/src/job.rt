//! Jobs on a host.
ghost use Rattle.std.specs.Prelude.{◌≡◌, ◌≤◌, true};
ghost use Rattle.wb_model.specs.Commands.{fits};
ghost use Rattle.wb_desk.specs.Hosted.{Hosted, Hand};
ghost use Rattle.wb_desk.specs.Turned.{Turned};
ghost use Rattle.wb_desk.specs.Jobs.{IsAsked};

use crate::kept::Kept;
use crate::origin::Origin;
use crate::pass::Pass;
use std::marker::Model;
use std::sync::ledger::Ledger;
use wb_base::{Keeper, Moment, Words};
use wb_model::{Asked, Told};

/// What is done with a host, and a pass to it, in one go.
pub trait Job<K: Keeper, A: Origin, B: Ledger> {
    /// Its answer.
    type Told;

    /// What it makes of the host and the pass before it, with those after it, and its answer.
    ghost does: { Self → Hosted → Hand → Hosted → Hand → Self.Told → Type 0 };

    /// Does it. The pass keeps its parts, and no turn is taken out of the book.
    fn run(self, kept: &mut Kept<K, A, B>, pass: &mut Pass<A, B>) -> Self::Told
        ensures does { does self kept.old pass.old kept.new pass.new result }
        ensures parts { pass.new.parts ≡ pass.old.parts }
        ensures book { kept.old.turns ≤ kept.new.turns };
}

/// One turn: a request that some bytes ask and that keeps the ranges of its fields, its moment and its random words.
#[derive(Drop)]
pub struct Turn {
    asked: Asked,
    moment: Moment,
    words: Words,
}

impl Model for Turn {
    ghost use Rattle.std.specs.Prelude.{◌≡◌, true};
    ghost use Rattle.wb_model.specs.Commands.{fits};
    ghost use Rattle.wb_model.specs.Requests.{Frame};
    ghost use Rattle.wb_desk.specs.Jobs.{IsAsked};

    ghost Value = { Frame };

    ghost view = { λ t. record { moment = t.moment; words = t.words; asked = t.asked } };

    ghost invariant = { λ t. (fits t.asked ≡ true) × IsAsked t.asked };
}

impl Turn {
    /// The turn of a request.
    pub fn new(asked: Asked, moment: Moment, words: Words) -> Turn
        requires fits { fits asked ≡ true }
        requires asked { IsAsked asked }
        ensures { result ≡ record { moment = moment; words = words; asked = asked } }
    {
        Turn {
            asked,
            moment,
            words,
        }
    }

    /// Some bytes ask it.
    pub fn is_asked(&self)
        ensures { IsAsked self.now.asked }
    {
        let _ = &self.asked;
    }
}

impl<K: Keeper, A: Origin, B: Ledger> Job<K, A, B> for Turn {
    type Told = Told;

    ghost does = { λ job host pass host' pass' told. Turned job host pass host' pass' told };

    fn run(self, kept: &mut Kept<K, A, B>, pass: &mut Pass<A, B>) -> Told {
        kept.turn(pass, &self.asked, self.moment, &self.words)
    }
}
