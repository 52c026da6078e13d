//! The rows of an outbox, read as notices.
ghost use Rattle.std.specs.Prelude.{◌≡◌, ◌≤◌, true, map, length, slice_range, Some, IfOk, IfErr, IfSome, IfNone};
ghost use Rattle.std.specs.List.{list_all};
ghost use Rattle.wb_row_codec.specs.Good.{is_dated};
ghost use Rattle.wb_row_codec.specs.Shapes.{day_named as day_by};
ghost use Rattle.wb_notice.specs.declared.notice.Notice.{Notice as NoticeData};
ghost use Rattle.wb_notice.specs.Deliveries.{ReadsNoNotices};
ghost use Rattle.wb_notice.specs.Notices.{IsNotice, is_ranged, kind_code, notice_row as row_of};

use crate::notice::notice_row;
use crate::{Notice, NoticeKind, NoticeNo};
use std::alloc::Global;
use wb_base::{Day, Key, Memory, Number, Row, Tenant, UserId};
use wb_terms::read_date;

/// Where the date begins in the text of a notice, after `{"day":"`.
const DATE: usize = 8;

/// Where it ends.
const DATE_END: usize = 18;

// The kind of a code.
fn kind_of(code: u32) -> Option<NoticeKind>
    ensures some { IfSome result (λ kind. kind_code kind ≡ code) }
    ensures each { (kind : _) → kind_code kind ≡ code → result ≡ Some kind }
{
    match code {
        1 => Some(NoticeKind::New),
        2 => Some(NoticeKind::AckOver),
        3 => Some(NoticeKind::FeedbackOver),
        4 => Some(NoticeKind::Expiring),
        5 => Some(NoticeKind::Asked),
        _ => None,
    }
}

// The day that a date names; the day before 1970 may be kept, though no answer is that date.
fn day_named(name: &[u8]) -> Option<Day>
    ensures day { result ≡ day_by name.now }
    ensures dated { IfSome result (λ day. is_dated day ≡ true) }
{
    if name == b"1969-12-31".as_slice() {
        Some(Day::new(-1))
    } else {
        read_date(name)
    }
}

// The day that a notice's text tells.
fn told_day(text: &str) -> Option<Day>
    ensures day { DATE_END ≤ length text.now → result ≡ day_by (slice_range text.now DATE DATE_END) }
    ensures dated { IfSome result (λ day. is_dated day ≡ true) }
{
    if text.len() < DATE_END {
        return None;
    }
    day_named(&text.as_bytes()[DATE..DATE_END])
}

// The notice of a key, written on a day.
fn notice_of(key: Key, day: Day) -> Option<Notice>
    requires { is_dated day ≡ true }
    ensures ranged { IfSome result (λ notice. is_ranged notice ≡ true) }
    ensures each { (notice : NoticeData) → is_ranged notice ≡ true → key ≡ (row_of notice).key → day ≡ notice.day → result ≡ Some notice }
{
    if key.kind != Key::ENTRY {
        return None;
    }
    Some(Notice {
        tenant: Tenant::try_new(key.tenant)?,
        number: Number::try_new(key.a)?,
        user: UserId::try_new(u16::try_from(key.b / 8).ok()?)?,
        kind: kind_of(key.b % 8)?,
        day,
    })
}

// The notice of a row.
fn read_notice(alloc: Global, row: &Row) -> Result<Option<Notice>, Memory>
    ensures some { IfOk result (λ found. IfSome found (λ notice. (row.now ≡ row_of notice) × (is_ranged notice ≡ true))) }
    ensures none { IfOk result (λ found. IfNone found (¬ IsNotice row.now)) }
{
    let Some(day) = told_day(row.text.as_str()) else {
        return Ok(None);
    };
    let Some(notice) = notice_of(row.key, day) else {
        return Ok(None);
    };
    if notice_row(alloc, &notice)? == *row {
        Ok(Some(notice))
    } else {
        Ok(None)
    }
}

/// The notices of rows, or the key of the first row that is no notice's.
pub(crate) fn read_notices(alloc: Global, rows: &[Row]) -> Result<Vec<Notice>, NoticeNo>
    ensures notices { IfOk result (λ notices. rows.now ≡ map row_of notices.items) }
    ensures ranged { IfOk result (λ notices. list_all is_ranged notices.items ≡ true) }
    ensures err { IfErr result (ReadsNoNotices rows.now) }
{
    let mut notices = Vec::new(alloc);
    for row in rows {
        match read_notice(alloc, row)? {
            Some(notice) => notices.push(notice)?,
            None => return Err(NoticeNo::OutboxRows(row.key)),
        }
    }
    Ok(notices)
}
