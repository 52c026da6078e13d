//! What a report's submission put down and its summary does not keep.
ghost use Rattle.std.specs.Prelude.{◌≡◌};
ghost use Rattle.wb_model.specs.Trails as trails;

use wb_base::{Given, Text};
use wb_model::{Deed, Entry};

/// The number of the form that the submission of a trail answered, 0 where there is none.
pub fn form(trail: &[Entry]) -> u32
    ensures { result ≡ trails.form trail.now }
{
    trail.iter().fold(0, |before, entry| match &entry.deed {
        Deed::Submitted { form, .. } => *form,
        _ => before,
    })
}

/// The version of that form, 0 where there is none.
pub fn version(trail: &[Entry]) -> u32
    ensures { result ≡ trails.version trail.now }
{
    trail.iter().fold(0, |before, entry| match &entry.deed {
        Deed::Submitted { version, .. } => *version,
        _ => before,
    })
}

/// The public answers.
pub(crate) fn answers(trail: &[Entry]) -> &[(Text, Given)]
    ensures { result.now ≡ trails.answers trail.now }
{
    let mut found: &[(Text, Given)] = &[];
    for entry in trail {
        if let Deed::Submitted { answers, .. } = &entry.deed {
            found = answers.as_slice();
        }
    }
    found
}
