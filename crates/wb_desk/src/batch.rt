//! The one call of the keeper, and why a turn is lost.
ghost use Rattle.std.specs.Prelude.{◌≡◌, ◌≢◌, ◌≤◌, [], List, All, Err, OnOk, OnErr};
ghost use Rattle.wb_base.specs.KeptRows.{all_changed, IsGoodChange};
ghost use Rattle.wb_base.specs.Outside.{Rose};
ghost use Rattle.wb_base.specs.declared.rows.Row.{Row as KeptRow};

use wb_base::{Change, KeepErr, Keeper};

/// Why a turn is lost.
#[derive(Clone, Copy, Debug, PartialEq, Eq)]
pub enum Lost {
    /// The keeper failed.
    Keeper,
    /// Memory was wanted.
    Memory,
}

/// Keeps a batch in one call, or makes none where there is nothing to keep.
pub fn keep<K: Keeper>(keeper: &mut K, batch: &[Change]) -> Result<(), Lost>
    requires { All IsGoodChange batch.now }
    ensures back { (K.end keeper.new).honest → (K.end keeper.old).honest }
    ensures ok { (K.end keeper.new).honest → (rows : List KeptRow) → (K.end keeper.old).holds rows → OnOk result ((K.end keeper.new).holds (all_changed rows batch.now)) }
    ensures err { (K.end keeper.new).honest → (rows : List KeptRow) → (K.end keeper.old).holds rows → OnErr result ((K.end keeper.new).holds rows) }
    ensures later { (K.end keeper.old).count ≤ (K.end keeper.new).count }
    ensures fault { result ≡ Err Lost.Keeper → Rose (K.end keeper.old).count (K.end keeper.new).count }
    ensures stayed { result ≢ Err Lost.Keeper → (K.end keeper.new).count ≡ (K.end keeper.old).count }
    ensures asked { OnErr result (batch.now ≢ []) }
{
    if batch.is_empty() {
        return Ok(());
    }
    match keeper.apply(batch) {
        Ok(()) => Ok(()),
        Err(KeepErr::Failed) => Err(Lost::Keeper),
        Err(KeepErr::Memory) => Err(Lost::Memory),
    }
}
