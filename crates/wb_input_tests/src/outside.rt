//! The ends of a host in memory, and over std, where calls fail.
ghost use Rattle.std.specs.Prelude.{◌<◌};
ghost use Rattle.wb_base.specs.KeptRows.{IsGoodChange};

use std::alloc::Global;
use std::io;
use std::io::{Read, Write};
use std::process::Abort;
use std::test::Fail;
use wb_base::{
    Change, Failed, KeepErr, Keeper, Key, MemKeeper, MemSink, MemSource, Number, Row, Sink, Source,
    StdSink, StdSource, Tenant, Text,
};

fn made_text(rt: &impl Abort, alloc: Global, bytes: &[u8]) -> Text {
    let copied = Text::copy(alloc, bytes);
    copied.expect(rt, "a text")
}

#[test]
fn a_source_in_memory_gives_pieces_and_fails_where_it_is_to(rt: HostRuntime) -> Result<(), Fail> {
    let alloc = rt.alloc();
    let content = b"abcdefgh".to_vec(alloc)?;
    let pieces = [1, 5].to_vec(alloc)?;
    let mut source = MemSource::new(content, pieces, [2, 6].to_vec(alloc)?);
    let mut into = [0; 3];
    let reads = [
        (Ok(1), b"a\0\0", 0),
        (Err(Failed), b"a\0\0", 1),
        (Ok(3), b"bcd", 1),
        (Ok(3), b"efg", 1),
        (Ok(1), b"hfg", 1),
        (Err(Failed), b"hfg", 2),
        (Ok(0), b"hfg", 2),
    ];
    for (wanted, bytes, faults) in reads {
        assert_eq!(rt; source.read(&mut into), wanted);
        assert_eq!(rt; into.as_slice(), bytes.as_slice());
        assert_eq!(rt; source.faults(), faults);
    }
    Ok(())
}

#[test]
fn a_sink_in_memory_takes_what_fits_its_room(rt: HostRuntime) -> Result<(), Fail> {
    let alloc = rt.alloc();
    let mut sink = MemSink::new(b"x".to_vec(alloc)?, 5, [2].to_vec(alloc)?)?;
    let writes = [
        (b"ab".as_slice(), Ok(()), b"xab".as_slice(), 0),
        (b"cd".as_slice(), Err(Failed), b"xab".as_slice(), 1),
        (b"cdef".as_slice(), Err(Failed), b"xabcde".as_slice(), 2),
        (b"".as_slice(), Ok(()), b"xabcde".as_slice(), 2),
    ];
    for (bytes, wanted, held, faults) in writes {
        assert_eq!(rt; sink.write_all(bytes), wanted);
        assert_eq!(rt; sink.held(), held);
        assert_eq!(rt; sink.faults(), faults);
    }
    Ok(())
}

/// Puts a row of a kind, of a report of a tenant.
fn put_of(rt: &impl Abort, alloc: Global, kind: u8, tenant: u32, report: u32) -> Change
    requires { kind < 8 }
    ensures { IsGoodChange result }
{
    let key = Key {
        kind,
        tenant,
        a: report,
        b: 0,
    };
    Change::Put(Row {
        key,
        text: made_text(rt, alloc, b"{}"),
    })
}

#[test]
fn a_keeper_in_memory_makes_all_changes_or_none(rt: HostRuntime) -> Result<(), Fail> {
    let alloc = rt.alloc();
    let (Some(tenant), Some(number)) = (Tenant::try_new(1), Number::try_new(3)) else {
        return Err(Fail::from("a report"));
    };
    let mut keeper = MemKeeper::new(Vec::new(alloc), [7].to_vec(alloc)?);
    for (kind, of, report) in [
        (6, 1, 3),
        (6, 1, 4),
        (6, 2, 3),
        (7, 1, 3),
        (5, 1, 3),
        (6, 1, 3),
    ] {
        assert!(rt;
            keeper
                .apply(&[put_of(&rt, alloc, kind, of, report)])
                .is_ok()
        );
    }
    assert_eq!(rt; keeper.rows().len(), 5);
    let drop_report = Change::DropReport(tenant, number);
    let changes = [drop_report, put_of(&rt, alloc, 1, 1, 0)];
    assert_eq!(rt; keeper.apply(&changes), Err(KeepErr::Failed));
    assert_eq!(rt; keeper.rows().len(), 5);
    assert_eq!(rt; keeper.faults(), 1);
    assert!(rt; keeper.apply(&changes).is_ok());
    let mut kept = Vec::new(alloc);
    for row in &keeper.load()? {
        kept.push((row.key.kind, row.key.tenant, row.key.a))?;
    }
    let wanted = [(1, 1, 0), (5, 1, 3), (6, 1, 4), (6, 2, 3)];
    assert_eq!(rt; kept.as_slice(), wanted.as_slice());
    Ok(())
}

/// Gives its bytes two at a time; the reads that are counted here fail, from 1.
#[derive(Drop)]
struct Halting {
    bytes: &'static [u8],
    reads: u32,
    fails: &'static [u32],
}

impl Read for Halting {
    fn read(&mut self, into: &mut [u8]) -> io::Result<usize> {
        self.reads = self.reads.saturating_add(1);
        if self.fails.contains(&self.reads) {
            return Err(io::ErrorKind::Other.into());
        }
        let size = self.bytes.len().min(into.len()).min(2);
        into[..size].copy_from_slice(&self.bytes[..size]);
        self.bytes = &self.bytes[size..];
        Ok(size)
    }
}

#[test]
fn a_source_over_a_reader_gives_its_bytes_and_counts_its_faults(rt: HostRuntime) {
    let mut source = StdSource::new(Halting {
        bytes: b"abcde",
        reads: 0,
        fails: &[1, 4, 5],
    });
    let mut into = [0; 4];
    for (wanted, bytes, faults) in [
        (Err(Failed), b"\0\0", 1),
        (Ok(2), b"ab", 1),
        (Ok(2), b"cd", 1),
        (Err(Failed), b"cd", 2),
        (Err(Failed), b"cd", 3),
        (Ok(1), b"ed", 3),
        (Ok(0), b"ed", 3),
        (Ok(0), b"ed", 3),
    ] {
        assert_eq!(rt; source.read(&mut into), wanted);
        assert!(rt; into[0] == bytes[0] && into[1] == bytes[1], "{bytes:?}");
        assert_eq!(rt; source.faults(), faults);
    }
}

/// Takes two bytes at a time and keeps them. Once it is full it takes nothing more, or it fails.
#[derive(Drop)]
struct Filling {
    held: Vec<u8>,
    room: usize,
    fails: bool,
}

impl Write for Filling {
    fn write(&mut self, bytes: &[u8]) -> io::Result<usize> {
        let size = bytes
            .len()
            .min(self.room.saturating_sub(self.held.len()))
            .min(2);
        if size == 0 && self.fails {
            return Err(io::ErrorKind::Other.into());
        }
        if self.held.extend_from_slice(&bytes[..size]).is_err() {
            return Err(io::ErrorKind::OutOfMemory.into());
        }
        Ok(size)
    }

    fn flush(&mut self) -> io::Result<()> {
        Ok(())
    }
}

#[test]
fn a_sink_over_a_writer_writes_each_byte_once_and_counts_its_faults(rt: HostRuntime) {
    for fails in [false, true] {
        let mut writer = Filling {
            held: Vec::new(rt.alloc()),
            room: 7,
            fails,
        };
        let mut sink = StdSink::new(&mut writer);
        for (bytes, wanted, faults) in [
            (b"abcde".as_slice(), Ok(()), 0),
            (b"".as_slice(), Ok(()), 0),
            (b"fgh".as_slice(), Err(Failed), 1),
            (b"i".as_slice(), Err(Failed), 2),
        ] {
            assert_eq!(rt; sink.write_all(bytes), wanted);
            assert_eq!(rt; sink.faults(), faults);
        }
        assert_eq!(rt; writer.held.as_slice(), b"abcdefg".as_slice());
    }
}
