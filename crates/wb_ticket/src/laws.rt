//! What holds of each history of a host.
ghost use Rattle.wb_ticket.specs.Scripts.{HistoriesAreScripts};

/// Turns that some bytes ask, each of the host that the one before it left, are one script over each past for which the host stood at
/// first: its places are those of frames, what was told is what the script replies, the keeper counted its losses, and the host stands then
/// for the past after them.
pub fn a_history_is_a_script()
    ensures { HistoriesAreScripts }
{}
