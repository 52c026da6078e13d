//! The rows of reports and of what is due on them, by what is kept beside each trail: no trail is walked for a list.
ghost use Rattle.std.specs.Prelude.{◌≡◌, ◌++◌, [], fold, IfOk, OnOk};
ghost use Rattle.wb_model.specs.ViewRows as rows_of;

use std::alloc::Global;
use wb_base::{Memory, Number, Text};
use wb_case::Case;
use wb_model::{Due, DueKind, Listed, Status};

/// The row of a report in a recipient's list.
pub fn listed(alloc: Global, number: Number, case: &Case) -> Result<Listed, Memory>
    ensures { IfOk result (λ row. row ≡ rows_of.listed number case.now.items) }
{
    let summary = case.summary();
    Ok(Listed {
        number: number.get(),
        context: summary.context,
        label: Text::from_str(alloc, case.label())?,
        status: summary.status,
        received: summary.received,
        ack_due: summary.ack_due,
        expires: summary.expires,
    })
}

/// Puts what is due on a report at the end, the acknowledgement first.
pub fn push_dues(dues: &mut Vec<Due>, number: Number, case: &Case) -> Result<(), Memory>
    ensures { OnOk result (dues.new.items ≡ dues.old.items ++ rows_of.dues_of number case.now.items) }
{
    let summary = case.summary();
    if summary.status == Status::Closed {
        return Ok(());
    }
    if summary.acknowledged.is_none() {
        dues.push(Due {
            day: summary.ack_due,
            number: number.get(),
            kind: DueKind::Ack,
        })?;
    }
    if !summary.feedback_given {
        dues.push(Due {
            day: summary.feedback_due,
            number: number.get(),
            kind: DueKind::Feedback,
        })?;
    }
    Ok(())
}

/// Sorts what is due by its day; what is due on one day stays in its order. It takes n log n steps at most.
pub fn sort_dues(dues: &mut Vec<Due>) -> Result<(), Memory>
    ensures { OnOk result (dues.new.items ≡ fold rows_of.due_among [] dues.old.items) }
{
    dues.sort_by_key(|due| due.day.days())?;
    Ok(())
}
