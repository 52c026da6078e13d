//! The terms of a report.
ghost use Rattle.std.specs.Prelude.{◌≡◌};
ghost use Rattle.wb_case.specs.Standing.{ack_term, feedback_term, expiry_term, open_term as open_term_by};

use crate::Case;
use wb_base::{Kind, Number, Tenant};
use wb_model::Status;
use wb_terms::Term;

/// The terms that stand of a report. A closed report has no more than its expiry.
#[derive(Clone, Copy, Debug)]
pub struct Terms {
    /// The last day for the acknowledgement, where there was none.
    pub ack: Option<Term>,
    /// The last day for feedback, where none was given.
    pub feedback: Option<Term>,
    /// The day on which the report goes.
    pub expiry: Term,
}

impl Case {
    // A term of this report that stands where nothing has settled it.
    fn open_term(&self, settled: bool, term: Term) -> Option<Term>
        ensures { result ≡ open_term_by self.now.items settled term }
    {
        if self.summary().status == Status::Closed || settled {
            None
        } else {
            Some(term)
        }
    }

    /// The terms that stand of this report, which has this number of this tenant. It looks at no entry of the trail.
    pub fn terms(&self, tenant: Tenant, number: Number) -> Terms
        ensures ack { result.ack ≡ ack_term tenant number self.now.items }
        ensures feedback { result.feedback ≡ feedback_term tenant number self.now.items }
        ensures expiry { result.expiry ≡ expiry_term tenant number self.now.items }
    {
        let summary = self.summary();
        let term = |day, kind| Term {
            tenant,
            day,
            number,
            kind,
        };
        Terms {
            ack: self.open_term(
                summary.acknowledged.is_some(),
                term(summary.ack_due, Kind::Ack),
            ),
            feedback: self.open_term(
                summary.feedback_given,
                term(summary.feedback_due, Kind::Feedback),
            ),
            expiry: term(summary.expires, Kind::Expiry),
        }
    }
}
