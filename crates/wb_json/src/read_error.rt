//! Why a value is not read.
ghost use Rattle.std.specs.Prelude.{◌≡◌};
ghost use Rattle.wb_json.specs.declared.read_error.ReadError.TheVariants.{Memory as NoMemory};

use std::alloc::AllocError;
use wb_base::Memory;

/// Why a value is not read.
#[derive(Clone, Copy, Debug, PartialEq, Eq)]
pub enum ReadError {
    /// It is not of the form that is read.
    Other,
    /// There was no memory.
    Memory,
}

impl From<Memory> for ReadError {
    ghost from_gives = { λ _ e. e ≡ NoMemory };

    fn from(_: Memory) -> ReadError {
        ReadError::Memory
    }
}

impl From<AllocError> for ReadError {
    ghost from_gives = { λ _ e. e ≡ NoMemory };

    fn from(_: AllocError) -> ReadError {
        ReadError::Memory
    }
}
