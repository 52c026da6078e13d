//! A notice, and its row.
ghost use Rattle.std.specs.Prelude.{◌≡◌, ◌<◌, ◌≤◌, length, IfOk};
ghost use Rattle.serde_json.specs.View.{view};
ghost use Rattle.wb_notice.specs.Notices.{kind_code, kind_name, notice_data, notice_row as row_of};

use serde_json::{Map, Value};
use std::alloc::Global;
use wb_base::{Day, Key, Memory, Number, Row, Tenant, UserId};
use wb_json::{put_date, put_text, put_whole, text_of};

/// What a notice says of a report.
#[derive(Clone, Copy, Debug, PartialEq, Eq)]
pub enum NoticeKind {
    /// It is there.
    New,
    /// It was not acknowledged in time (Directive (EU) 2019/1937, Article 9(1)(b)).
    AckOver,
    /// No feedback was given in time (Directive (EU) 2019/1937, Article 9(1)(f)).
    FeedbackOver,
    /// It expires in seven days at most.
    Expiring,
    /// A reader asked for the identity of its reporter, and waits.
    Asked,
}

/// What tells a user of a report, by its number alone.
#[derive(Clone, Copy, Debug, PartialEq, Eq)]
pub struct Notice {
    pub tenant: Tenant,
    /// The number of the report.
    pub number: Number,
    pub user: UserId,
    pub kind: NoticeKind,
    /// The tenant's day on which it was written.
    pub day: Day,
}

impl NoticeKind {
    /// Its number in the key of a row, from 1 to 5.
    pub fn code(self) -> u32
        ensures code { result ≡ kind_code self }
        ensures small { result < 8 }
    {
        match self {
            NoticeKind::New => 1,
            NoticeKind::AckOver => 2,
            NoticeKind::FeedbackOver => 3,
            NoticeKind::Expiring => 4,
            NoticeKind::Asked => 5,
        }
    }

    /// Its name.
    pub fn name(self) -> &'static str
        ensures name { result.now ≡ kind_name self }
        ensures short { length result.now ≤ 13 }
    {
        match self {
            NoticeKind::New => "new",
            NoticeKind::AckOver => "ack_over",
            NoticeKind::FeedbackOver => "feedback_over",
            NoticeKind::Expiring => "expiring",
            NoticeKind::Asked => "asked",
        }
    }
}

// The JSON value of a notice.
#[tactic(auto, unfolding(crate::specs::Notices::notice_data))]
fn notice_value(alloc: Global, notice: &Notice) -> Result<Value, Memory>
    ensures { IfOk result (λ value. view value ≡ notice_data notice.now) }
{
    let mut map = Map::new(alloc);
    put_whole(&mut map, alloc, "user", notice.user.id() as u64)?;
    put_whole(&mut map, alloc, "number", notice.number.get() as u64)?;
    put_text(&mut map, alloc, "kind", notice.kind.name())?;
    put_date(&mut map, alloc, "day", notice.day)?;
    Ok(Value::Object(map))
}

/// The key of a notice's row.
pub(crate) fn notice_key(notice: &Notice) -> Key
    ensures { result ≡ (row_of notice.now).key }
{
    Key {
        kind: Key::ENTRY,
        tenant: notice.tenant.id(),
        a: notice.number.get(),
        b: 8 * notice.user.id() as u32 + notice.kind.code(),
    }
}

/// The row of a notice.
pub fn notice_row(alloc: Global, notice: &Notice) -> Result<Row, Memory>
    ensures { IfOk result (λ row. row ≡ row_of notice.now) }
{
    let value = notice_value(alloc, notice)?;
    Ok(Row {
        key: notice_key(notice),
        text: text_of(alloc, &value)?,
    })
}
