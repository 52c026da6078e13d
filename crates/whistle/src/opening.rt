//! The host that a script's setup opens over kept rows.
ghost use Rattle.std.specs.Prelude.{◌≡◌, ◌≢◌, ◌≤◌, ◌^◌, Err, IfOk, IfErr};
ghost use Rattle.wb_tables.specs.Standing.{hosts_of};
ghost use Rattle.whistle.specs.Starts.{Begins, OpensNone, unread};

use std::alloc::Global;
use wb_base::{Keeper, Source};
use wb_cli::Status;
use wb_desk::Desk;
use wb_server::open_by;
use wb_wire::{FrameNo, FrameReader};

/// The host that the setup opens with which the input begins, before its first turn; or how a run ends that has none.
pub fn open<S: Source, K: Keeper>(
    alloc: Global,
    reader: &mut FrameReader,
    source: &mut S,
    keeper: &mut K,
) -> Result<Desk, Status>
    requires { reader.old ≡ unread }
    ensures ok { IfOk result (λ desk. Begins (K.end keeper.old) (K.end keeper.new) (S.end source.old) (S.end source.new) reader.new (hosts_of desk)) }
    ensures err { IfErr result (λ status. OpensNone (K.end keeper.old) (K.end keeper.new) (S.end source.old) (S.end source.new) status) }
    ensures usage { IfErr result (λ status. status ≢ Status.Usage) }
    ensures limit { reader.new.taken ≤ 2 ^ 40 }
    ensures back { (K.end keeper.new).honest → (K.end keeper.old).honest }
    ensures later { (S.end source.old).count ≤ (S.end source.new).count }
    ensures stayed { result ≢ Err Status.ReadFault → (S.end source.new).count ≡ (S.end source.old).count }
{
    let setup = match reader.setup(alloc, source) {
        Ok(setup) => setup,
        Err(FrameNo::Read) => return Err(Status::ReadFault),
        Err(FrameNo::Bad(n)) => return Err(Status::BadFrame(n)),
        Err(FrameNo::TooLong) => return Err(Status::TooLong),
        Err(FrameNo::Memory) => return Err(Status::NoMemory),
    };
    open_by(alloc, keeper, &setup)
}
