//! Texts as CSV, and texts one after the other.

ghost use Rattle.std.specs.Prelude.{◌≡◌, ◌++◌, ◌∷◌, [], ℕ, List, IfOk, OnOk, flat_map};
ghost use Rattle.csv_face.specs.Csv.{HasRows, IsCsvOf};
ghost use Rattle.row_text.specs.Fields.{IsDelimiter};

use csv_face::to_csv;
use out_of_memory::Memory;
use plan_stages::Inputs;
use std::alloc::Global;

/// Returns a text after its heading.
fn after(alloc: Global, heading: &[u8], text: Vec<u8>) -> Result<Vec<u8>, Memory>
    ensures { IfOk result (λ whole. whole.items ≡ heading.now ++ text.items) }
{
    if heading.is_empty() {
        return Ok(text);
    }
    let mut whole = Vec::new(alloc);
    whole.extend_from_slice(heading)?;
    whole.extend_from_slice(text.as_slice())?;
    Ok(whole)
}

/// Appends a text in COPY text form to others, as CSV after its heading.
pub fn push_csv(
    alloc: Global,
    csvs: &mut Inputs,
    heading: &[u8],
    text: &[u8],
    delimiter: u8,
) -> Result<(), Memory>
    requires delimiter { IsDelimiter delimiter }
    requires rows { HasRows delimiter text.now }
    ensures { OnOk result ((csv : List ℕ) × IsCsvOf delimiter text.now csv × (csvs.new ≡ csvs.old ++ (heading.now ++ csv) ∷ [])) }
{
    let csv = after(alloc, heading, to_csv(alloc, text, delimiter)?)?;
    match csvs.push(csv) {
        Ok(()) => Ok(()),
        Err(_) => Err(Memory),
    }
}

/// Returns the texts joined, in order.
pub fn joined(alloc: Global, texts: &Inputs) -> Result<Vec<u8>, Memory>
    ensures { IfOk result (λ bytes. bytes.items ≡ flat_map (λ text. text) texts.now) }
{
    let mut bytes = Vec::new(alloc);
    for place in 0..texts.len() {
        bytes.extend_from_slice(texts.get(place))?;
    }
    Ok(bytes)
}
