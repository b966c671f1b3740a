//! A field, as it is written into a page.

ghost use Rattle.std.specs.Prelude.{◌≡◌, ◌≤◌, ◌+◌, ◌++◌, length, None, codes, option_copied};
ghost use Rattle.row_text.specs.Fields.{IsDelimiter, field_text, escaped_text};

use crate::escapes::{escape_count, has_escape, letter_of};
use line_pages::PageBuf;

/// Appends a text, or a part of one, as it is written. As many bytes as it takes must be free.
pub fn put_piece(buf: &mut PageBuf, bytes: &[u8], delimiter: u8)
    requires delimiter { IsDelimiter delimiter }
    requires room { length buf.old.text + length (escaped_text delimiter bytes.now) ≤ buf.old.room }
    ensures { buf.new ≡ record buf.old { text = buf.old.text ++ escaped_text delimiter bytes.now } }
{
    if has_escape(bytes, delimiter) {
        put_runs(buf, bytes, delimiter);
    } else {
        buf.put(bytes);
    }
}

/// Appends a text as it is written. Each run of bytes that stand for themselves is appended at once.
fn put_runs(buf: &mut PageBuf, bytes: &[u8], delimiter: u8)
    requires { length buf.old.text + length (escaped_text delimiter bytes.now) ≤ buf.old.room }
    ensures { buf.new ≡ record buf.old { text = buf.old.text ++ escaped_text delimiter bytes.now } }
{
    let mut start = 0;
    for (index, byte) in bytes.iter().enumerate() {
        if let Some(letter) = letter_of(*byte, delimiter) {
            buf.put(&bytes[start..index]);
            buf.put(&[b'\\', letter]);
            start = index + 1;
        }
    }
    buf.put(&bytes[start..]);
}

/// Appends a null field. 2 bytes must be free.
pub fn put_null(buf: &mut PageBuf)
    requires { length buf.old.text + 2 ≤ buf.old.room }
    ensures { buf.new ≡ record buf.old { text = buf.old.text ++ codes "\\N" } }
{
    buf.put(b"\\N");
}

/// Appends a field. None is a null field. As many bytes as the field's size must be free.
pub fn put_field(buf: &mut PageBuf, field: Option<&[u8]>, delimiter: u8)
    requires delimiter { IsDelimiter delimiter }
    requires room { length buf.old.text + length (field_text delimiter (option_copied field)) ≤ buf.old.room }
    ensures { buf.new ≡ record buf.old { text = buf.old.text ++ field_text delimiter (option_copied field.entry) } }
{
    match field {
        None => put_null(buf),
        Some(bytes) => put_piece(buf, bytes, delimiter),
    }
}

/// Returns how many bytes `put_field` appends for a field. None is a null field.
pub fn field_size(field: Option<&[u8]>, delimiter: u8) -> usize
    ensures { result ≡ length (field_text delimiter (option_copied field.entry)) }
{
    match field {
        None => b"\\N".len(),
        Some(bytes) if has_escape(bytes, delimiter) => bytes.len() + escape_count(bytes, delimiter),
        Some(bytes) => bytes.len(),
    }
}
