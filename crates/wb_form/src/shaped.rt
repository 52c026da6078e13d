//! What is read out of a JSON value, and lists of it.
ghost use Rattle.std.specs.Prelude.{◌≡◌, IfOk, Some, None, Err, Option};
ghost use Rattle.serde_json.specs.Data.{Data};
ghost use Rattle.serde_json.specs.View.{view, items_view};
ghost use Rattle.wb_base.specs.declared.form.Format.{Format as FormatOf};
ghost use Rattle.wb_base.specs.FormShape.{all_of, list_of};
ghost use Rattle.wb_form.specs.declared.shaped.ShapeFault.TheVariants.{Memory as NoMemory};

use serde_json::Value;
use std::alloc::Global;
use wb_base::{Format, Memory};
use wb_list::Items;

/// Why nothing was read.
#[derive(Clone, Copy, Debug, PartialEq, Eq)]
pub enum ShapeFault {
    /// The value is not so built.
    Shape,
    /// There was no memory.
    Memory,
}

impl From<Memory> for ShapeFault {
    ghost from_gives = { λ _ e. e ≡ NoMemory };

    fn from(_: Memory) -> ShapeFault {
        ShapeFault::Memory
    }
}

/// What a JSON value may be built as.
pub trait Shaped: Drop {
    /// What a value is built as in a format, if it is so built.
    ghost shape: { FormatOf → Data → Option Self };

    /// What the value is built as.
    fn from_value(alloc: Global, format: Format, value: &Value) -> Result<Self, ShapeFault>
    where
        Self: Sized,
        ensures ok { IfOk result (λ x. shape format (view value.now) ≡ Some x) }
        ensures bad { result ≡ Err ShapeFault.Shape → shape format (view value.now) ≡ None };
}

fn read_all<T: Shaped>(
    alloc: Global,
    format: Format,
    values: &Vec<Value>,
) -> Result<Items<T>, ShapeFault>
    ensures ok { IfOk result (λ xs. all_of (T.shape format) (items_view values.now.items) ≡ Some xs) }
    ensures bad { result ≡ Err ShapeFault.Shape → all_of (T.shape format) (items_view values.now.items) ≡ None }
{
    let mut found = Items::new(alloc);
    for value in values {
        found.push(T::from_value(alloc, format, value)?)?;
    }
    Ok(found)
}

/// A list of values that are each so built.
pub fn read_list<T: Shaped>(
    alloc: Global,
    format: Format,
    value: &Value,
) -> Result<Items<T>, ShapeFault>
    ensures ok { IfOk result (λ xs. list_of (T.shape format) (view value.now) ≡ Some xs) }
    ensures bad { result ≡ Err ShapeFault.Shape → list_of (T.shape format) (view value.now) ≡ None }
{
    match value.as_array() {
        Some(values) => read_all(alloc, format, values),
        None => Err(ShapeFault::Shape),
    }
}
