//! The parts of templates, made ready for rows.

ghost use Rattle.std.specs.Prelude.{◌≡◌, IfOk, map};
ghost use Rattle.row_text.specs.Fields.{escaped_text};
ghost use Rattle.schema_plan.specs.declared.ready.ReadyPart.TheVariants.{Cited};
ghost use Rattle.schema_facts.specs.Layout.{part_layout, place_of_column};
ghost use Rattle.schema_plan.specs.Ready.{ready_part};

use crate::ready::ReadyPart;
use out_of_memory::Memory;
use row_text::WrittenTexts;
use schema_facts::{count, place_of_column};
use schema_model::{Column, Part, Sequence, Text};
use std::alloc::Global;

/// Makes ready the parts of a template, in order. The columns are those of its table.
pub(crate) fn ready_parts(
    alloc: Global,
    delimiter: u8,
    columns: &[Column],
    parts: &[Part],
) -> Result<Sequence<ReadyPart>, Memory>
    ensures { IfOk result (λ ready. ready ≡ map (λ part. ready_part delimiter (part_layout columns.now part)) parts.now) }
{
    let mut ready = Sequence::new(alloc);
    for part in parts {
        ready.push(ready_part(alloc, delimiter, columns, part)?)?;
    }
    Ok(ready)
}

fn ready_part(
    alloc: Global,
    delimiter: u8,
    columns: &[Column],
    part: &Part,
) -> Result<ReadyPart, Memory>
    ensures { IfOk result (λ ready. ready ≡ ready_part delimiter (part_layout columns.now part.now)) }
{
    match part {
        Part::Literal(text) => Ok(ReadyPart::Literal(written_text(
            alloc,
            delimiter,
            text.as_str().as_bytes(),
        )?)),
        Part::Cited(name) => Ok(cited_part(columns, name, 0)),
        Part::Padded { column, width } => Ok(cited_part(columns, column, count(*width))),
    }
}

/// Makes ready a part that cites the column of a name, filled up to a number of bytes.
fn cited_part(columns: &[Column], name: &Text, width: u64) -> ReadyPart
    ensures { result ≡ Cited (place_of_column columns.now name.now) width }
{
    ReadyPart::Cited {
        column: place_of_column(columns, name) as u64,
        width,
    }
}

/// Returns a text as it is written.
fn written_text(alloc: Global, delimiter: u8, text: &[u8]) -> Result<Sequence<u8>, Memory>
    ensures { IfOk result (λ written. written ≡ escaped_text delimiter text.now) }
{
    let mut texts = WrittenTexts::new(alloc);
    texts.push(text, delimiter)?;
    kept_bytes(alloc, texts.get(0))
}

/// Copies bytes into a sequence.
fn kept_bytes(alloc: Global, bytes: &[u8]) -> Result<Sequence<u8>, Memory>
    ensures { IfOk result (λ kept. kept ≡ bytes.now) }
{
    let mut kept = Sequence::new(alloc);
    for byte in bytes {
        kept.push(*byte)?;
    }
    Ok(kept)
}
