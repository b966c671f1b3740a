//! What one line of a word list says.

ghost use Rattle.std.specs.Prelude.{◌≡◌, ◌≢◌, ◌<◌, ◌+◌, Some, None, IfOk, IfErr, OnOk};
ghost use Rattle.std.specs.Char.{is_ascii_digit};
ghost use Rattle.std.specs.List.{list_all};
ghost use Rattle.std.specs.Str.Lines.{strip_carriage_return};
ghost use Rattle.dictionaries.specs.Grammar.{text_of, weight_of, weight_named, fault_of};

use crate::DictFault;

/// The most bytes of a text.
const LONGEST_TEXT: usize = 255;

/// The most entries of a word list.
const MOST_ENTRIES: usize = 1_000_000;

/// The most digits of a weight.
const MOST_DIGITS: usize = 7;

/// The greatest weight.
const GREATEST_WEIGHT: u64 = 1_000_000;

/// Returns a part between line feeds without one carriage return at its end.
pub fn strip_carriage_return(part: &str) -> &str
    ensures { result.now ≡ strip_carriage_return part.now }
{
    part.strip_suffix('\r').unwrap_or(part)
}

/// Returns the text and the weight of line `number`, or what is wrong with the line. `before` is the number of entries before it.
pub fn read_line(line: &str, number: u64, before: usize) -> Result<(&str, u64), DictFault>
    ensures read { IfOk result (λ entry. (fault_of (before + 1) number line.now ≡ None)
        × (text_of line.now ≡ entry.0.now) × (weight_of line.now ≡ Some entry.1)) }
    ensures refused { IfErr result (λ fault. fault_of (before + 1) number line.now ≡ Some fault) }
    ensures no_memory { IfErr result (λ fault. fault ≢ DictFault.Memory) }
    ensures few { OnOk result (before < 1000000) }
{
    let (text, weight) = divide(line);
    if text.len() > LONGEST_TEXT {
        return Err(DictFault::LongEntry { line: number });
    }
    let Some(weight) = weight else {
        return Err(DictFault::BadWeight { line: number });
    };
    if before >= MOST_ENTRIES {
        return Err(DictFault::TooMany { line: number });
    }
    Ok((text, weight))
}

/// Returns the text of a line, and its weight if that is right. A line without a tab has the weight 1.
fn divide(line: &str) -> (&str, Option<u64>)
    ensures text { text_of line.now ≡ result.0.now }
    ensures weight { weight_of line.now ≡ result.1 }
{
    match line.split_once('\t') {
        Some((text, weight)) => (text, read_weight(weight)),
        None => (line, Some(1)),
    }
}

/// Returns the weight that digits stand for. Returns None if they stand for no weight.
fn read_weight(digits: &str) -> Option<u64>
    ensures { result ≡ weight_named digits.now }
{
    if digits.is_empty() || digits.len() > MOST_DIGITS || !are_digits(digits.as_bytes()) {
        return None;
    }
    let weight = digits.parse::<u64>().ok()?;
    if weight == 0 || weight > GREATEST_WEIGHT {
        return None;
    }
    Some(weight)
}

fn are_digits(bytes: &[u8]) -> bool
    ensures { result ≡ list_all is_ascii_digit bytes.now }
{
    bytes.iter().all(|byte| byte.is_ascii_digit())
}
