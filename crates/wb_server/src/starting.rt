//! What a host that serves is started with: its setup's text, and the rows that are kept.
ghost use Rattle.std.specs.Prelude.{◌≡◌, ◌≢◌, ◌≤◌, List, Err, IfOk, IfErr};
ghost use Rattle.wb_tables.specs.Standing.{hosts_of};
ghost use Rattle.wb_base.specs.declared.rows.Row.{Row};
ghost use Rattle.wb_model.specs.Past.{Past};
ghost use Rattle.wb_model.specs.Pasts.{AllOpened};
ghost use Rattle.wb_server.specs.Opens.{Opens};
ghost use Rattle.wb_server.specs.Serves.{IsText, ServesNone, Unread};

use crate::open_by;
use std::alloc::Global;
use wb_base::{Keeper, Source, limits};
use wb_cli::Status;
use wb_desk::Desk;
use wb_wire::Routes;

// The text of the setup, read to its end.
fn read_text<S: Source>(alloc: Global, setup: &mut S) -> Result<Vec<u8>, Status>
    ensures ok { IfOk result (λ text. IsText (S.end setup.old) (S.end setup.new) text.items) }
    ensures err { IfErr result (λ status. Unread (S.end setup.old) (S.end setup.new) status) }
    ensures later { (S.end setup.old).count ≤ (S.end setup.new).count }
    ensures stayed { result ≢ Err Status.ReadFault → (S.end setup.new).count ≡ (S.end setup.old).count }
{
    let mut text = Vec::new(alloc);
    let mut piece = [0; 8_192];
    loop {
        let count = match setup.read(&mut piece) {
            Ok(count) => count,
            Err(_) => return Err(Status::ReadFault),
        };
        if count == 0 {
            return Ok(text);
        }
        if limits::SETUP_BYTES - text.len() < count {
            return Err(Status::BadFrame(0));
        }
        match text.extend_from_slice(&piece[..count]) {
            Ok(()) => {}
            Err(_) => return Err(Status::NoMemory),
        }
    }
}

/// The paths that a host knows, and the host that the setup's text opens over the rows that a keeper holds; or how a call ends for
/// which there is none.
pub fn start<S: Source, K: Keeper>(
    alloc: Global,
    setup: &mut S,
    keeper: &mut K,
) -> Result<(Routes, Desk), Status>
    ensures ok { IfOk result (λ started. (text : _) × IsText (S.end setup.old) (S.end setup.new) text
        × ((loaded : List Row) × (start : Past AllOpened) × Opens (K.end keeper.old) (K.end keeper.new) loaded text start (hosts_of started.1))) }
    ensures err { IfErr result (λ status. ServesNone (S.end setup.old) (S.end setup.new) (K.end keeper.old) (K.end keeper.new) status) }
    ensures back { (K.end keeper.new).honest → (K.end keeper.old).honest }
    ensures stayed { result ≢ Err Status.ReadFault → (S.end setup.new).count ≡ (S.end setup.old).count }
{
    let Ok(routes) = Routes::new(alloc) else {
        return Err(Status::NoMemory);
    };
    let text = read_text(alloc, setup)?;
    match open_by(alloc, keeper, &text) {
        Ok(desk) => Ok((routes, desk)),
        Err(status) => Err(status),
    }
}
