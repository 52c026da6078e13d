//! Lines of fields as CSV, written into memory. Each fault of the writer is want of memory, since nothing else is written to.
ghost use Rattle.std.specs.Prelude.{◌≡◌, ◌++◌, ◌∷◌, [], List, Some, map, decimal, IfOk, OnOk};
ghost use Rattle.wb_base.specs.DateTexts.{date_text as date_text_of};
ghost use Rattle.wb_export.specs.Csv.{HasWritten, IsCsvLine, CsvLine, csv_text};

use csv::{ByteRecord, Writer, WriterBuilder};
use itoa::Buffer;
use std::alloc::Global;
use wb_base::{Day, Memory};
use wb_terms::date_text;

// The lines that begin with this one.
pub(crate) fn begin(alloc: Global, header: &[&[u8]]) -> Result<Writer<Vec<u8>>, Memory>
    ensures { IfOk result (λ lines. HasWritten (λ v. Some v.items) lines (map (λ f. f.now) header.now ∷ [])) }
{
    let mut lines = WriterBuilder::new().from_writer(Vec::new(alloc));
    if lines.write_fields(header).is_err() {
        return Err(Memory);
    }
    Ok(lines)
}

// Puts a line at the end.
pub(crate) fn put(lines: &mut Writer<Vec<u8>>, line: &ByteRecord) -> Result<(), Memory>
    ensures { OnOk result ((before : List CsvLine) (fields : CsvLine) → HasWritten (λ v. Some v.items) lines.old before → IsCsvLine line.now fields → HasWritten (λ v. Some v.items) lines.new (before ++ fields ∷ [])) }
{
    if lines.write_byte_record(line).is_err() {
        return Err(Memory);
    }
    Ok(())
}

// The text of all lines.
pub(crate) fn end(lines: Writer<Vec<u8>>) -> Result<Vec<u8>, Memory>
    ensures { IfOk result (λ text. (all : List CsvLine) → HasWritten (λ v. Some v.items) lines all → text.items ≡ csv_text all) }
{
    match lines.into_inner() {
        Ok(text) => Ok(text),
        Err(_) => Err(Memory),
    }
}

// Puts a field at the end of a line.
pub(crate) fn add(line: &mut ByteRecord, field: &[u8]) -> Result<(), Memory>
    ensures { OnOk result ((before : CsvLine) → IsCsvLine line.old before → IsCsvLine line.new (before ++ field.now ∷ [])) }
{
    line.push_field(field)?;
    Ok(())
}

// Puts a number at the end of a line, in decimal digits.
pub(crate) fn add_number(line: &mut ByteRecord, number: u32) -> Result<(), Memory>
    ensures { OnOk result ((before : CsvLine) → IsCsvLine line.old before → IsCsvLine line.new (before ++ decimal number ∷ [])) }
{
    let mut digits = Buffer::new();
    add(line, digits.format(number).as_bytes())
}

// Puts a day at the end of a line, as YYYY-MM-DD.
pub(crate) fn add_day(line: &mut ByteRecord, day: Day) -> Result<(), Memory>
    ensures { OnOk result ((before : CsvLine) → IsCsvLine line.old before → IsCsvLine line.new (before ++ date_text_of day ∷ [])) }
{
    add(line, date_text(day).as_slice())
}
