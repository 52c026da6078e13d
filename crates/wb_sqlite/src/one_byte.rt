//! Files of one byte, which the database takes for its own.
use std::fs;
use std::io::{self, ErrorKind};

// The length of a log that has its header and nothing else.
const LENGTH_OF_HEADER: u64 = 41;

// How many bytes the file at a path has, where there is one.
fn length(rt: &HostRuntime, path: &str) -> io::Result<Option<u64>> {
    match fs::metadata(rt, path) {
        Ok(seen) => Ok(Some(seen.len())),
        Err(error) if error.kind() == ErrorKind::NotFound => Ok(None),
        Err(error) => Err(error),
    }
}

/// Whether the file at a path has one byte and is not the database's. As the database makes a file, it writes one byte of 0
/// first, with a log beside it that has its header. If it is stopped there, the next time it goes on, but it does so at
/// any file of one byte, and so would write over what another program put there.
pub(crate) fn is_foreign_byte(rt: &HostRuntime, path: &str) -> io::Result<bool> {
    if length(rt, path)? != Some(1) {
        return Ok(false);
    }
    let log = format!(in rt.alloc(); "{path}-wal")?;
    match length(rt, log.as_str())? {
        Some(bytes) if LENGTH_OF_HEADER <= bytes => {
            let content = fs::read(rt, path)?;
            Ok(content.as_slice() != [0u8].as_slice())
        }
        _ => Ok(true),
    }
}
