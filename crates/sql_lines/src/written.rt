//! Fields as they are written in a line, read back and put as literals.

ghost use Rattle.std.specs.Prelude.{◌≡◌, ◌<◌, ◌≤◌, ◌+◌, ◌++◌, drop, false, length, true};
ghost use Rattle.sql_lines.specs.Literals.{literal, literal_text, text_byte};
ghost use Rattle.sql_lines.specs.Reading.{IsPlain, byte_of, field_before, field_read, is_null, text_from};

use crate::literals::put_literal;
use line_pages::{PageBuf, Piece};

/// The byte that begins and ends a text in a statement.
const QUOTE: u8 = b'\'';

/// Returns where a field ends that begins at index `at` of some lines: at the first byte `stop`, unless a backslash makes that part of the
/// field. Without such a byte it ends where the lines do.
#[inline(always)]
pub(crate) fn end_of(lines: &[u8], at: usize, stop: u8) -> usize
    requires { at ≤ length lines.now }
    ensures end { result ≡ at + length (field_before stop (drop at lines.now)) }
    ensures within { result ≤ length lines.now }
{
    let mut escape = false;
    for end in at..lines.len() {
        let byte = lines[end];
        if byte == stop && !escape {
            return end;
        }
        escape = byte == b'\\' && !escape;
    }
    lines.len()
}

/// Whether there is no backslash and no quote among some bytes. The loop looks at each byte without a branch, so that a processor takes many
/// at once.
pub(crate) fn is_plain(bytes: &[u8]) -> bool
    ensures { result ≡ true → IsPlain bytes.now }
{
    let mut found: u8 = 0;
    for byte in bytes {
        found = found.max(u8::from((*byte == b'\\') | (*byte == QUOTE)));
    }
    found == 0
}

/// Appends the literal of a field as it is written. `plain` tells that it has neither a backslash nor a quote; else it may have them. As many
/// bytes as the literal takes must be free.
#[inline(always)]
pub(crate) fn put_written(buf: &mut PageBuf, written: &[u8], bare: bool, plain: bool)
    requires plain { plain ≡ true → IsPlain written.now }
    requires room { length buf.old.text + length (literal bare (field_read written.now)) ≤ buf.old.room }
    ensures { buf.new ≡ record buf.old { text = buf.old.text ++ literal bare (field_read written.now) } }
{
    if plain {
        put_plain(buf, written, bare);
    } else {
        put_unplain(buf, written, bare);
    }
}

/// Appends the literal of a field as it is written, which has neither a backslash nor a quote.
#[inline(always)]
fn put_plain(buf: &mut PageBuf, written: &[u8], bare: bool)
    requires plain { IsPlain written.now }
    requires room { length buf.old.text + length (literal bare (field_read written.now)) ≤ buf.old.room }
    ensures { buf.new ≡ record buf.old { text = buf.old.text ++ literal bare (field_read written.now) } }
{
    if bare {
        buf.put(written);
    } else {
        buf.put_piece(&Piece::of_byte(QUOTE));
        buf.put(written);
        buf.put_piece(&Piece::of_byte(QUOTE));
    }
}

/// Appends the literal of any field as it is written.
fn put_unplain(buf: &mut PageBuf, written: &[u8], bare: bool)
    requires room { length buf.old.text + length (literal bare (field_read written.now)) ≤ buf.old.room }
    ensures { buf.new ≡ record buf.old { text = buf.old.text ++ literal bare (field_read written.now) } }
{
    if is_plain(written) {
        put_plain(buf, written, bare);
    } else if is_null(written) {
        put_literal(buf, None, bare);
    } else if bare {
        put_text(buf, written, true);
    } else {
        buf.put_piece(&Piece::of_byte(QUOTE));
        put_text(buf, written, false);
        buf.put_piece(&Piece::of_byte(QUOTE));
    }
}

/// Whether a field as it is written is a null one.
fn is_null(written: &[u8]) -> bool
    ensures { result ≡ is_null written.now }
{
    match written {
        [b'\\', b'N'] => true,
        _ => false,
    }
}

/// Appends the text of a field as it is written, without the quotes around it.
fn put_text(buf: &mut PageBuf, written: &[u8], bare: bool)
    requires room { length buf.old.text + length (literal_text bare (text_from false written.now)) ≤ buf.old.room }
    ensures { buf.new ≡ record buf.old { text = buf.old.text ++ literal_text bare (text_from false written.now) } }
{
    let mut escape = false;
    for byte in written {
        if *byte == b'\\' && !escape {
            escape = true;
        } else {
            let byte = if escape { byte_of(*byte) } else { *byte };
            put_byte(buf, byte, bare);
            escape = false;
        }
    }
}

/// Appends a byte of a text. A quote between quotes is written twice.
fn put_byte(buf: &mut PageBuf, byte: u8, bare: bool)
    requires { length buf.old.text + length (text_byte bare byte) ≤ buf.old.room }
    ensures { buf.new ≡ record buf.old { text = buf.old.text ++ text_byte bare byte } }
{
    if byte == QUOTE && !bare {
        buf.put(&[QUOTE, QUOTE]);
    } else {
        buf.put(&[byte]);
    }
}

/// Returns the byte that a backslash and a letter stand for.
fn byte_of(letter: u8) -> u8
    ensures { result ≡ byte_of letter }
{
    match letter {
        b'b' => 8,
        b't' => 9,
        b'n' => 10,
        b'v' => 11,
        b'f' => 12,
        b'r' => 13,
        itself => itself,
    }
}
