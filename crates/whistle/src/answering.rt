//! One frame of a script, answered and written.
ghost use Rattle.std.specs.Prelude.{◌≡◌, ◌<◌, ◌≤◌, ◌+◌, Ok, OnOk, OnErr};
ghost use Rattle.std.specs.Io.KnownBytes.{Appends};
ghost use Rattle.wb_base.specs.Outside.{AppendsFront, HasCause};
ghost use Rattle.wb_model.specs.Past.{Past};
ghost use Rattle.wb_model.specs.Pasts.{AllOpened};
ghost use Rattle.wb_model.specs.Playing.{written};
ghost use Rattle.wb_model.specs.Rows.{rows};
ghost use Rattle.wb_model.specs.Scripts.{Place};
ghost use Rattle.wb_rows.specs.Judged.{judged};
ghost use Rattle.wb_rows.specs.Left.{left};
ghost use Rattle.wb_tables.specs.Standing.{hosts_of};
ghost use Rattle.wb_desk.specs.Turns.{StandsFor};
ghost use Rattle.wb_wire.specs.Responses.{reply_of};
ghost use Rattle.whistle.specs.Answered.{IsAnswerTo};

use std::alloc::Global;
use wb_base::{Failed, Keeper, Sink};
use wb_desk::Desk;
use wb_promise::a_desk_leaves_rows_that_are_read;
use wb_wire::{Response, Routes, ScriptFrame, read_request, refusal, reply_head, reply_line};

/// Answers one frame, which is a turn of the host where it is read.
pub fn answer_frame<K: Keeper>(
    alloc: Global,
    routes: &Routes,
    desk: &mut Desk,
    keeper: &mut K,
    frame: &ScriptFrame,
) -> Response
    requires { desk.old.turns < 1_000_000_000_000_000 }
    ensures answer { (past : Past AllOpened) → StandsFor (hosts_of desk.old) past → (place : Place) × IsAnswerTo (K.end keeper.old) (K.end keeper.new) past frame.now result (hosts_of desk.new) place }
    // The rows of what the host holds then are refused by no rule, and are read as that.
    ensures read_back { (past : Past AllOpened) → StandsFor (hosts_of desk.new) past → judged (rows past) ≡ Ok (left past) }
    ensures turns { desk.new.turns ≤ desk.old.turns + 1 }
    ensures back { (K.end keeper.new).honest → (K.end keeper.old).honest }
{
    a_desk_leaves_rows_that_are_read();
    match read_request(alloc, routes, frame.bytes.as_slice()) {
        Ok(asked) => {
            let told = desk.step(keeper, &asked, frame.moment, &frame.words);
            desk.stands();
            Response {
                told,
                allow: None,
                close: asked.close,
            }
        }
        Err(no) => {
            desk.stands();
            refusal(&no)
        }
    }
}

/// Writes what the output has of a response. It takes no memory.
pub fn write_response<W: Sink>(sink: &mut W, response: &Response) -> Result<(), Failed>
    ensures ok { OnOk result (Appends (W.end sink.old).held (W.end sink.new).held (written (reply_of response.now))) }
    ensures err { OnErr result (AppendsFront (W.end sink.old).held (W.end sink.new).held (written (reply_of response.now))) }
    ensures cause { HasCause (W.end sink.old).count (W.end sink.new).count result }
{
    let told = &response.told;
    let body = told.body.as_bytes();
    let head = reply_head(told.status, response.allow, body.len(), response.close);
    let line = reply_line(told.status, head.as_bytes().len() + body.len());
    match sink.write_all(line.as_bytes()) {
        Ok(()) => {}
        Err(no) => return Err(no),
    }
    match sink.write_all(head.as_bytes()) {
        Ok(()) => {}
        Err(no) => return Err(no),
    }
    match sink.write_all(body) {
        Ok(()) => {}
        Err(no) => return Err(no),
    }
    match sink.write_all(b"\n") {
        Ok(()) => Ok(()),
        Err(no) => Err(no),
    }
}
