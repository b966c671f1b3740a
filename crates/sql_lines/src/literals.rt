//! Fields as literals of SQL.

ghost use Rattle.std.specs.Prelude.{◌≡◌, ◌≤◌, ◌+◌, ◌++◌, ◌∷◌, [], flat_map, length, option_copied};
ghost use Rattle.sql_lines.specs.Literals.{literal, quoted};

use line_pages::PageBuf;

/// The byte that begins and ends a text.
const QUOTE: u8 = b'\'';

/// Appends the literal of a field, bare or between quotes. None is a null field. As many bytes as the literal takes must be free.
pub fn put_literal(buf: &mut PageBuf, field: Option<&[u8]>, bare: bool)
    requires room { length buf.old.text + length (literal bare (option_copied field)) ≤ buf.old.room }
    ensures { buf.new ≡ record buf.old { text = buf.old.text ++ literal bare (option_copied field.entry) } }
{
    match field {
        None => buf.put(b"NULL"),
        Some(bytes) if bare => buf.put(bytes),
        Some(bytes) => {
            buf.put(&[QUOTE]);
            put_quoted(buf, bytes);
            buf.put(&[QUOTE]);
        }
    }
}

/// Appends a text with each quote written twice. As many bytes as it takes must be free.
fn put_quoted(buf: &mut PageBuf, bytes: &[u8])
    requires room { length buf.old.text + length (flat_map quoted bytes.now) ≤ buf.old.room }
    ensures { buf.new ≡ record buf.old { text = buf.old.text ++ flat_map quoted bytes.now } }
{
    let mut start = 0;
    for (index, byte) in bytes.iter().enumerate() {
        if *byte == QUOTE {
            buf.put(&bytes[start..index]);
            buf.put(&[QUOTE, QUOTE]);
            start = index + 1;
        }
    }
    buf.put(&bytes[start..]);
}
