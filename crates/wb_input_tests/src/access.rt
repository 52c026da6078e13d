//! Receipts and secrets as they are drawn and checked, and the sessions of principals.
ghost use Rattle.std.specs.Prelude.{◌≡◌};

use std::process::Abort;
use std::test::Fail;
use wb_access::{
    AccessFault, ReceiptBox, Session, SessionTable, check_secret, digest, draw, secret,
};
use wb_base::{Digest, Moment, Number, Presented, Principal, Role, Salt, Tenant, UserId, Words};

const SALT: Salt = Salt([7; 16]);

const SECRET: [u8; 32] = [b'5'; 32];

#[test]
fn receipts_and_secrets_are_drawn_from_the_words(rt: HostRuntime) {
    let most = u64::MAX;
    let draws = [
        ([0, 42, 7, 8], b"0000000000000042"),
        ([0, 0, 7, 8], b"0000000000000000"),
        ([7, 9, 0, 0], b"7208515966861321"),
        ([most, most, 0, 0], b"4607431768211455"),
    ];
    for (words, receipt) in draws {
        assert_eq!(rt; draw(&Words(words)).as_slice(), receipt.as_slice());
    }
    let secrets = [
        ([1, 2, 0, 2], b"00000000000000000000000000000002"),
        (
            [0, 0, 0xfedcba9876543210, 0xa],
            b"fedcba9876543210000000000000000a",
        ),
    ];
    for (words, text) in secrets {
        assert_eq!(rt; secret(&Words(words)).as_slice(), text.as_slice());
    }
}

#[test]
fn a_secret_is_checked_by_its_digest(rt: HostRuntime) {
    let salt = Salt([0, 1, 2, 3, 4, 5, 6, 7, 8, 9, 10, 11, 12, 13, 14, 15]);
    let kept = Digest([
        0x9a, 0x8a, 0xe2, 0x4c, 0x4e, 0xf2, 0xab, 0x2a, 0x84, 0x29, 0xf7, 0x97, 0x5f, 0xfe, 0xf5,
        0x3d, 0x64, 0xc5, 0xe6, 0x34, 0x25, 0x79, 0xf3, 0x3b, 0xfe, 0xe9, 0xcc, 0xf8, 0x22, 0x05,
        0x10, 0x90,
    ]);
    assert_eq!(rt; digest(&salt, b"ada-pass"), kept);
    assert_eq!(rt; check_secret(&kept, &salt, b"ada-pass"), Ok(()));
    assert_eq!(rt;
        check_secret(&kept, &salt, b"ada-Pass"),
        Err(AccessFault::BadLogin)
    );
    assert_eq!(rt;
        check_secret(&kept, &Salt([0; 16]), b"ada-pass"),
        Err(AccessFault::BadLogin)
    );
}

// A login of the user with an id, or of the reporter of the report with a number.
fn login(rt: &impl Abort, turn: u64, tenant: u32, user: u16, number: u32, at: u64) -> Session
    ensures { result.turn ≡ turn }
{
    let tenant = Tenant::try_new(tenant).expect(rt, "a tenant");
    let principal = if user > 0 {
        Principal::User(tenant, UserId::try_new(user).expect(rt, "a user"))
    } else {
        Principal::Report(tenant, Number::try_new(number).expect(rt, "a number"))
    };
    Session {
        turn,
        tenant,
        principal,
        role: Role::Recipient,
        digest: digest(&SALT, &SECRET),
        at: Moment::try_new(at).expect(rt, "a moment"),
    }
}

// Adds a login where its turn is above all.
fn open(rt: &impl Abort, table: &mut SessionTable, session: Session) {
    for other in table.as_slice() {
        assert!(rt; other.turn < session.turn);
    }
    table.reserve().expect(rt, "memory");
    table.open(session);
}

// Whether a session of the tenant is found by its turn and secret.
fn finds(
    rt: &impl Abort,
    table: &SessionTable,
    tenant: u32,
    turn: u64,
    secret: [u8; 32],
    now: u64,
) -> bool {
    let tenant = Tenant::try_new(tenant).expect(rt, "a tenant");
    let now = Moment::try_new(now).expect(rt, "a moment");
    table
        .find(tenant, &SALT, &Presented::Token { turn, secret }, now)
        .is_ok()
}

#[test]
fn of_nine_sessions_of_a_principal_the_oldest_goes(rt: HostRuntime) -> Result<(), Fail> {
    let mut table = SessionTable::new(rt.alloc());
    open(&rt, &mut table, login(&rt, 1, 1, 4, 0, 0));
    open(&rt, &mut table, login(&rt, 2, 1, 0, 4, 0));
    open(&rt, &mut table, login(&rt, 3, 2, 4, 0, 0));
    for turn in 4..11 {
        open(&rt, &mut table, login(&rt, turn, 1, 4, 0, 0));
    }
    assert!(rt; finds(&rt, &table, 1, 1, SECRET, 0));
    open(&rt, &mut table, login(&rt, 11, 1, 4, 0, 0));
    let rows = [
        (1, 1, false),
        (1, 2, true),
        (2, 3, true),
        (1, 4, true),
        (1, 11, true),
    ];
    for (tenant, turn, stands) in rows {
        assert_eq!(rt;
            finds(&rt, &table, tenant, turn, SECRET, 0),
            stands,
            "turn {turn}"
        );
    }
    assert_eq!(rt; table.as_slice().len(), 10);
    table.drop_of(login(&rt, 0, 1, 4, 0, 0).principal);
    assert_eq!(rt; table.as_slice().len(), 2);
    Ok(())
}

#[test]
fn a_session_is_shown_by_turn_and_secret_until_it_ends(rt: HostRuntime) -> Result<(), Fail> {
    let mut table = SessionTable::new(rt.alloc());
    open(&rt, &mut table, login(&rt, 5, 1, 4, 0, 100));
    open(&rt, &mut table, login(&rt, 6, 1, 0, 3, 101));
    let other = [b'6'; 32];
    let rows = [
        (1, 5, SECRET, 0, true),
        (1, 5, SECRET, 14_499, true),
        (1, 5, SECRET, 14_500, false),
        (1, 6, SECRET, 14_500, true),
        (2, 5, SECRET, 0, false),
        (1, 4, SECRET, 0, false),
        (1, 5, other, 0, false),
    ];
    for (tenant, turn, secret, now, stands) in rows {
        assert_eq!(rt;
            finds(&rt, &table, tenant, turn, secret, now),
            stands,
            "turn {turn} at {now}"
        );
    }
    table.drop_ended(Moment::try_new(14_500).ok_or("a moment")?);
    assert_eq!(rt; table.as_slice().len(), 1);
    table.close(6);
    assert_eq!(rt; table.as_slice().len(), 0);
    Ok(())
}

#[test]
fn tenants_have_their_own_receipts(rt: HostRuntime) -> Result<(), Fail> {
    let mut receipts = ReceiptBox::new(rt.alloc());
    let code = digest(&SALT, b"0000000000000042");
    let other = digest(&SALT, b"0000000000000043");
    for (tenant, code, number) in [(2, code, 1), (1, code, 3), (1, other, 1)] {
        let tenant = Tenant::try_new(tenant).ok_or("a tenant")?;
        let number = Number::try_new(number).ok_or("a number")?;
        receipts.reserve().expect(&rt, "memory");
        assert_eq!(rt; receipts.free(tenant, &code), Ok(()));
        receipts.add(tenant, code, number);
        assert_eq!(rt;
            receipts.free(tenant, &code),
            Err(AccessFault::ReceiptTaken)
        );
    }
    let one = Tenant::try_new(1).ok_or("a tenant")?;
    let two = Tenant::try_new(2).ok_or("a tenant")?;
    let first = Number::try_new(1).ok_or("a number")?;
    assert_eq!(rt; receipts.find(one, &other), Some(first));
    receipts.remove(one, &other);
    assert_eq!(rt; receipts.find(one, &other), None);
    assert_eq!(rt; receipts.find(one, &code), Number::try_new(3));
    assert_eq!(rt; receipts.find(two, &code), Some(first));
    assert_eq!(rt; receipts.find(two, &other), None);
    Ok(())
}
