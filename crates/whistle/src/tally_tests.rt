//! What a tally tells where its keeper or its sink fails.

use crate::Status;
use crate::tests::{ROOM, call, keeper_failing_at};
use std::alloc::Global;
use std::test::Fail;
use wb_base::{MemSink, MemSource, Text};

// The calls at which the keeper fails and the writes that fail, and the status and the lines.
type Case = (&'static [u64], &'static [u64], Status, &'static str);

// The host is opened by two calls, and the next are those of the two reports.
const CASES: &[Case] = &[
    (
        &[3],
        &[],
        Status::Done,
        "turns 8\n200 4\n201 3\n503 1\nlive 1\nnumbers 1\nsessions 1\n",
    ),
    (&[1], &[], Status::OpenFault, ""),
    (&[2], &[], Status::OpenFault, ""),
    (&[], &[1], Status::WriteFault, ""),
    (&[], &[3], Status::WriteFault, "turns 8\n200 4\n"),
];

// Runs a tally of eight turns, and gives the status and the output.
fn tally_over(alloc: Global, calls: &[u64], writes: &[u64]) -> Result<(Status, Vec<u8>), Fail> {
    let words = [Text::from_str(alloc, "tally")?, Text::from_str(alloc, "8")?];
    let mut source = MemSource::new(Vec::new(alloc), Vec::new(alloc), Vec::new(alloc));
    let mut sink = MemSink::new(Vec::new(alloc), ROOM, writes.to_vec(alloc)?)?;
    let mut keeper = keeper_failing_at(alloc, calls.to_vec(alloc)?);
    let status = call(alloc, &words, &mut source, &mut sink, &mut keeper);
    Ok((status, sink.held().to_vec(alloc)?))
}

#[test]
fn a_tally_tells_what_the_replies_and_the_host_come_to(rt: HostRuntime) -> Result<(), Fail> {
    let alloc = rt.alloc();
    for (calls, writes, status, lines) in CASES {
        let (ended, held) = tally_over(alloc, calls, writes)?;
        assert!(rt;
            ended == *status && held.as_slice() == lines.as_bytes(),
            "{lines}"
        );
    }
    Ok(())
}
