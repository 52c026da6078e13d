//! Why a call gave no answer.
ghost use Rattle.std.specs.Prelude.{◌≡◌};
ghost use Rattle.wb_base.specs.declared.faults.KeepErr.TheVariants.{Memory as NoMemory, Failed as KeeperFailed};
ghost use Rattle.wb_base.specs.declared.faults.TextFault.TheVariants.{Memory as NoMemoryForText};

use crate::Text;
use std::alloc::AllocError;
use wb_list::Memory;

/// The outside failed.
#[derive(Clone, Copy, Debug, PartialEq, Eq)]
pub struct Failed;

/// Why a keeper of rows gave no answer.
#[derive(Clone, Copy, Debug, PartialEq, Eq)]
pub enum KeepErr {
    /// There was no memory, which is no fault of the keeper.
    Memory,
    /// The keeper failed.
    Failed,
}

/// Why bytes are no text.
#[derive(Clone, Copy, Debug, PartialEq, Eq)]
pub enum TextFault {
    /// They are not UTF-8.
    NotUtf8,
    /// There was no memory.
    Memory,
}

/// Why a value is no form, and the field at which it shows; the field is empty where there is none.
#[derive(Drop, PartialEq, Eq)]
pub struct FormFault {
    /// 1 `Shape`, 2 `DoubleId`, 3 `LateTrigger`, 4 `SealedTrigger`, 5 `NoOption`, 6 `TooMany`, 7 `Memory`.
    pub code: u8,
    /// The id of the field.
    pub field: Text,
}

/// Why answers are refused, and the field at which it shows; the field is empty where there is none.
#[derive(Drop, PartialEq, Eq)]
pub struct AnswerFault {
    /// 1 `Unknown`, 2 `Missing`, 3 `Hidden`, 4 `WrongKind`, 5 `TooLong`, 6 `NoSuchOption`, 7 `Memory`.
    pub code: u8,
    /// The id of the field.
    pub field: Text,
}

impl FormFault {
    /// The value is not built as a form.
    pub const SHAPE: u8 = 1;
    /// A field's id comes twice in the form, or an option's twice in a field.
    pub const DOUBLE_ID: u8 = 2;
    /// A condition names no earlier field.
    pub const LATE_TRIGGER: u8 = 3;
    /// A public field's condition names an identity field.
    pub const SEALED_TRIGGER: u8 = 4;
    /// A condition names an option that is not there, or a field that takes options has none.
    pub const NO_OPTION: u8 = 5;
    /// A count over its limit, or nothing where something must be.
    pub const TOO_MANY: u8 = 6;
    /// There was no memory.
    pub const MEMORY: u8 = 7;
}

impl AnswerFault {
    /// No field has the id.
    pub const UNKNOWN: u8 = 1;
    /// A required field is shown and not answered.
    pub const MISSING: u8 = 2;
    /// A field is answered and not shown.
    pub const HIDDEN: u8 = 3;
    /// The answer is not of the field's kind.
    pub const WRONG_KIND: u8 = 4;
    /// The answer is over its limit.
    pub const TOO_LONG: u8 = 5;
    /// The answer is no option of the field.
    pub const NO_SUCH_OPTION: u8 = 6;
    /// There was no memory.
    pub const MEMORY: u8 = 7;
}

impl From<Memory> for KeepErr {
    ghost from_gives = { λ _ e. e ≡ NoMemory };

    fn from(_: Memory) -> KeepErr {
        KeepErr::Memory
    }
}

impl From<Failed> for KeepErr {
    ghost from_gives = { λ _ e. e ≡ KeeperFailed };

    fn from(_: Failed) -> KeepErr {
        KeepErr::Failed
    }
}

impl From<AllocError> for TextFault {
    ghost from_gives = { λ _ e. e ≡ NoMemoryForText };

    fn from(_: AllocError) -> TextFault {
        TextFault::Memory
    }
}
