//! The file of a setup's text.

use std::fs::File;
use std::io;
use std::io::{ErrorKind, Read};

/// A file, or one that could not be opened: each read of that fails.
#[derive(Drop)]
pub struct SetupFile {
    file: Option<File>,
}

impl SetupFile {
    /// Opens the file at a path.
    pub fn open(rt: &HostRuntime, path: &str) -> SetupFile {
        SetupFile {
            file: File::open(rt, path).ok(),
        }
    }
}

impl Read for SetupFile {
    fn read(&mut self, buf: &mut [u8]) -> io::Result<usize> {
        match &mut self.file {
            Some(file) => file.read(buf),
            None => Err(ErrorKind::NotFound.into()),
        }
    }
}
