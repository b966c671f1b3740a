//! Names of tables and columns.

ghost use Rattle.std.specs.Prelude.{◌≡◌};
ghost use Rattle.std.specs.List.{list_all};
ghost use Rattle.schema_facts.specs.Names.{is_name, begins_with_letter, is_letter, is_name_byte};

use schema_model::Text;

/// The most bytes of a name.
const MAX_LEN: usize = 32;

/// Whether a text is a name: a letter from a to z, then letters, digits and `_`, with at most 32 bytes in all.
pub fn is_name(text: &Text) -> bool
    ensures { result ≡ is_name text.now }
{
    let bytes = text.as_str().as_bytes();
    if !begins_with_letter(bytes) || bytes.len() > MAX_LEN {
        return false;
    }
    are_name_bytes(bytes)
}

fn are_name_bytes(bytes: &[u8]) -> bool
    ensures { result ≡ list_all is_name_byte bytes.now }
{
    bytes.iter().all(|byte| is_name_byte(*byte))
}

fn begins_with_letter(bytes: &[u8]) -> bool
    ensures { result ≡ begins_with_letter bytes.now }
{
    match bytes {
        [first, ..] => is_letter(*first),
        [] => false,
    }
}

fn is_letter(byte: u8) -> bool
    ensures { result ≡ is_letter byte }
{
    b'a' <= byte && byte <= b'z'
}

fn is_name_byte(byte: u8) -> bool
    ensures { result ≡ is_name_byte byte }
{
    is_letter(byte) || (b'0' <= byte && byte <= b'9') || byte == b'_'
}
