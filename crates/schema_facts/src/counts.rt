//! Numbers of a schema that count something.

ghost use Rattle.std.specs.Prelude.{◌≡◌};
ghost use Rattle.schema_facts.specs.Counts.{count};

/// Returns a number of a schema as a count. A number below 0 counts as 0.
pub fn count(number: i64) -> u64
    ensures { result ≡ count number }
{
    if number < 0 { 0 } else { number as u64 }
}
