//! Days as they are written, the ends of terms, and an index of terms.
ghost use Rattle.wb_base.specs.Days.{IsEarlyDay};

use std::process::Abort;
use std::test::Fail;
use wb_base::{Day, Moment, Number, Tenant, are_holidays};
use wb_terms::{
    Calendar, Kind, Term, TermIndex, ack_due, date_text, day_of, expiry, feedback_due, read_date,
};

// A day to which terms may be added, by its text.
fn early(rt: &impl Abort, text: &str) -> Day
    ensures { IsEarlyDay result }
{
    let day = read_date(text.as_bytes()).expect(rt, "a date");
    let days = day.days();
    assert!(rt; days <= 1_190_000, "{text} is early");
    day
}

#[test]
fn days_are_written_and_read(rt: HostRuntime) {
    let rows = [
        (-1, "1969-12-31", false),
        (0, "1970-01-01", true),
        (11_016, "2000-02-29", true),
        (19_782, "2024-02-29", true),
        (47_481, "2099-12-31", true),
        (47_540, "2100-02-28", true),
        (47_541, "2100-03-01", true),
        (47_847, "2101-01-01", true),
        (1_179_732, "5199-12-31", true),
        (1_179_733, "5200-01-01", false),
        (1_200_000, "5255-06-28", false),
    ];
    for (days, text, is_read) in rows {
        let day = Day::try_new(days).expect(&rt, "a day");
        assert_eq!(rt;
            date_text(day).as_slice(),
            text.as_bytes(),
            "the text of {days}"
        );
        let read = if is_read { Some(day) } else { None };
        assert_eq!(rt; read_date(text.as_bytes()), read, "the day of {text}");
    }
}

#[test]
fn what_is_no_date_is_refused(rt: HostRuntime) {
    let rows = [
        "",
        "2025-1-31",
        "2025-01-311",
        "2025-02-30",
        "2023-02-29",
        "2100-02-29",
        "2025-00-01",
        "2025-13-01",
        "2025-01-00",
        "2025/01/31",
        "20250-1-31",
        "abcd-ef-gh",
        "202a-01-31",
        "+025-01-31",
        "-025-01-31",
        "2025-01-+1",
        " 025-01-31",
    ];
    for text in rows {
        assert_eq!(rt; read_date(text.as_bytes()), None, "{text}");
    }
}

#[test]
fn terms_end_on_their_days(rt: HostRuntime) {
    // received, acknowledged, the last day for an acknowledgement, and for feedback
    let rows = [
        ("2024-11-20", Some("2024-11-30"), "2024-11-27", "2025-02-28"),
        ("2025-01-30", Some("2025-01-31"), "2025-02-06", "2025-04-30"),
        ("2025-11-23", None, "2025-11-30", "2026-02-28"),
        ("2023-11-20", Some("2023-11-29"), "2023-11-27", "2024-02-29"),
        ("2023-11-20", Some("2023-11-30"), "2023-11-27", "2024-02-29"),
        ("2099-11-28", Some("2099-11-30"), "2099-12-05", "2100-02-28"),
        ("2099-12-20", None, "2099-12-27", "2100-03-27"),
        ("2100-11-30", Some("2100-11-30"), "2100-12-07", "2101-02-28"),
        ("2100-02-22", None, "2100-03-01", "2100-06-01"),
        ("1970-01-01", None, "1970-01-08", "1970-04-08"),
        ("5199-12-31", None, "5200-01-07", "5200-04-07"),
    ];
    let plain = Calendar::plain(rt.alloc());
    for (received, acknowledged, answered, fed_back) in rows {
        let day = early(&rt, received);
        assert_eq!(rt;
            date_text(ack_due(day, &plain)).as_slice(),
            answered.as_bytes(),
            "received {received}"
        );
        let feedback = match acknowledged {
            Some(text) => feedback_due(day, Some(early(&rt, text)), false, &plain),
            None => feedback_due(day, None, false, &plain),
        };
        assert_eq!(rt;
            date_text(feedback).as_slice(),
            fed_back.as_bytes(),
            "received {received}"
        );
    }
}

#[test]
fn terms_roll_past_days_that_are_off(rt: HostRuntime) -> Result<(), Fail> {
    let alloc = rt.alloc();
    let received = early(&rt, "2025-11-23");
    // the holidays, the last day for an acknowledgement, for feedback, and for feedback that was extended
    let rows = [
        ([].as_slice(), "2025-12-01", "2026-03-02", "2026-06-01"),
        (&["2025-12-01"], "2025-12-02", "2026-03-02", "2026-06-01"),
        (
            &["2025-11-30", "2025-12-01", "2025-12-02", "2026-05-29"],
            "2025-12-03",
            "2026-03-02",
            "2026-06-01",
        ),
        (
            &["2026-02-27", "2026-03-02", "2026-06-05"],
            "2025-12-01",
            "2026-03-03",
            "2026-06-01",
        ),
    ];
    for (holidays, answered, fed_back, extended) in rows {
        let mut days = Vec::new(alloc);
        for text in holidays {
            days.push(early(&rt, text))?;
        }
        assert!(rt; are_holidays(&days));
        let calendar = Calendar::of(true, days);
        let told = [
            (ack_due(received, &calendar), answered),
            (feedback_due(received, None, false, &calendar), fed_back),
            (feedback_due(received, None, true, &calendar), extended),
        ];
        for (day, text) in told {
            assert_eq!(rt; date_text(day).as_slice(), text.as_bytes(), "{text}");
        }
    }
    Ok(())
}

#[test]
fn reports_expire_on_their_days(rt: HostRuntime) {
    let rows = [
        ("2025-01-30", 1, "2025-01-31"),
        ("2024-02-28", 1, "2024-02-29"),
        ("2024-02-28", 366, "2025-02-28"),
        ("2099-12-31", 365, "2100-12-31"),
        ("2025-11-23", 1825, "2030-11-22"),
        ("2025-11-23", 3650, "2035-11-21"),
    ];
    for (from, retention, expired) in rows {
        let day = early(&rt, from);
        assert!(rt; 1 <= retention && retention <= 3650);
        assert_eq!(rt;
            date_text(expiry(day, retention)).as_slice(),
            expired.as_bytes(),
            "from {from}"
        );
    }
}

#[test]
fn moments_fall_on_their_days(rt: HostRuntime) {
    let rows = [
        (0, -720, "1969-12-31"),
        (43_199, -720, "1969-12-31"),
        (43_200, -720, "1970-01-01"),
        (1_738_324_799, -720, "2025-01-30"),
        (1_738_324_800, -720, "2025-01-31"),
        (1_738_231_199, 840, "2025-01-30"),
        (1_738_231_200, 840, "2025-01-31"),
        (1_738_274_399, 120, "2025-01-30"),
        (1_738_274_400, 120, "2025-01-31"),
        (1_738_281_599, 0, "2025-01-30"),
        (1_738_281_600, 0, "2025-01-31"),
        (99_999_999_999, 840, "5138-11-16"),
    ];
    for (seconds, offset, day) in rows {
        let moment = Moment::try_new(seconds).expect(&rt, "a moment");
        assert!(rt; -720 <= offset && offset <= 840);
        assert_eq!(rt;
            date_text(day_of(moment, offset)).as_slice(),
            day.as_bytes(),
            "{seconds} at {offset}"
        );
    }
}

// A term of a tenant's report on a day.
fn term(rt: &impl Abort, tenant: u32, days: i32, number: u32, kind: Kind) -> Term {
    Term {
        tenant: Tenant::try_new(tenant).expect(rt, "a tenant"),
        day: Day::try_new(days).expect(rt, "a day"),
        number: Number::try_new(number).expect(rt, "a number"),
        kind,
    }
}

#[test]
fn terms_of_a_tenant_and_a_kind_are_found_up_to_a_day(rt: HostRuntime) -> Result<(), Fail> {
    let mut index = TermIndex::new(rt.alloc());
    let rows = [
        (2, 10, 1, Kind::Ack),
        (1, 11, 4, Kind::Expiry),
        (1, 10, 7, Kind::Expiry),
        (1, 10, 7, Kind::Ack),
        (1, 9, 8, Kind::Expiry),
        (1, 10, 3, Kind::Expiry),
        (1, -1, 9, Kind::Feedback),
    ];
    for (tenant, day, number, kind) in rows {
        let term = term(&rt, tenant, day, number, kind);
        index.reserve(1)?;
        assert!(rt; !index.remove(&term));
        index.add(term);
    }
    let found = [
        (1, 8, Kind::Expiry, [0, 0, 0]),
        (1, 9, Kind::Expiry, [8, 0, 0]),
        (1, 10, Kind::Expiry, [8, 3, 7]),
        (1, 10, Kind::Ack, [7, 0, 0]),
        (1, 1_200_000, Kind::Feedback, [9, 0, 0]),
        (2, 10, Kind::Expiry, [0, 0, 0]),
        (2, 10, Kind::Ack, [1, 0, 0]),
        (3, 10, Kind::Ack, [0, 0, 0]),
    ];
    for (tenant, day, kind, wanted) in found {
        let asked = term(&rt, tenant, day, 1, kind);
        let numbers = index.up_to(asked.tenant, asked.day, kind)?;
        let mut given = [0; 3];
        for (place, number) in given.iter_mut().zip(&numbers) {
            *place = number.get();
        }
        assert_eq!(rt; given, wanted, "tenant {tenant} to day {day}");
    }
    assert!(rt; index.remove(&term(&rt, 1, 10, 7, Kind::Expiry)));
    assert_eq!(rt; index.as_slice().len(), 6);
    Ok(())
}
