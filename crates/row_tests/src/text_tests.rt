//! Values worked out by hand from the list of escapes.

ghost use Rattle.row_text.specs.Fields.{IsDelimiter};

use line_pages::PageBuf;
use row_text::{WrittenTexts, field_size, put_field, put_null, put_piece};
use std::alloc::Global;
use std::process::Abort;

/// Tells whether a field is written as a text, into a page that has exactly its room.
fn is_written(alloc: Global, field: Option<&[u8]>, delimiter: u8, text: &[u8]) -> bool
    requires { IsDelimiter delimiter }
{
    let size = field_size(field, delimiter);
    match PageBuf::with_room(alloc, size) {
        Ok(page) => {
            let mut page = page;
            put_field(&mut page, field, delimiter);
            size == text.len() && page.text() == text
        }
        Err(_) => false,
    }
}

/// Fields that both delimiters write alike.
const ALIKE: &[(Option<&[u8]>, &[u8])] = &[
    (None, b"\\N"),
    (Some(b""), b""),
    (Some(b"plain text"), b"plain text"),
    (Some(b"\x08"), b"\\b"),
    (Some(b"\x09"), b"\\t"),
    (Some(b"\x0a"), b"\\n"),
    (Some(b"\x0b"), b"\\v"),
    (Some(b"\x0c"), b"\\f"),
    (Some(b"\x0d"), b"\\r"),
    (Some(b"\\"), b"\\\\"),
    (Some(b"\\N"), b"\\\\N"),
    (Some(b"\\n"), b"\\\\n"),
    (Some(b"N"), b"N"),
    (Some(b"\x00\x07\x0e\x1f\x7f"), b"\x00\x07\x0e\x1f\x7f"),
    (Some(b"[]{}}"), b"[]{}}"),
    (Some(b"\x80\x8a\xdc\xfc\xff"), b"\x80\x8a\xdc\xfc\xff"),
    (Some(b"\xc3\xa4\xe2\x82\xac"), b"\xc3\xa4\xe2\x82\xac"),
    (Some(b"\nstart"), b"\\nstart"),
    (Some(b"end\r"), b"end\\r"),
    (Some(b"in\x08side"), b"in\\bside"),
    (Some(b"\x0b\x0ctwo"), b"\\v\\ftwo"),
    (Some(b"two\r\n"), b"two\\r\\n"),
    (Some(b"a\\\\b"), b"a\\\\\\\\b"),
    (Some(b"\t\t"), b"\\t\\t"),
    (Some(b"a\tbc\ndef\\ghij"), b"a\\tbc\\ndef\\\\ghij"),
    (
        Some(b"\x08\x09\x0a\x0b\x0c\x0d\\"),
        b"\\b\\t\\n\\v\\f\\r\\\\",
    ),
];

fn assert_alike(rt: &impl Abort, alloc: Global, fields: &[(Option<&[u8]>, &[u8])]) {
    for (place, (field, text)) in fields.iter().enumerate() {
        let between_tabs = is_written(alloc, *field, 9, text);
        let between_bars = is_written(alloc, *field, 124, text);
        assert!(rt; between_tabs && between_bars, "case {place} of 0");
    }
}

#[test]
fn most_fields_are_written_alike_with_both_delimiters(rt: HostRuntime) {
    assert_alike(&rt, rt.alloc(), ALIKE);
}

/// Texts with bars, and how they are written between tabs and between bars.
const WITH_BARS: &[(&[u8], &[u8], &[u8])] = &[
    (b"|", b"|", b"\\|"),
    (b"|start", b"|start", b"\\|start"),
    (b"end|", b"end|", b"end\\|"),
    (b"a||b", b"a||b", b"a\\|\\|b"),
    (b"\\|", b"\\\\|", b"\\\\\\|"),
    (b"a\t|\nb", b"a\\t|\\nb", b"a\\t\\|\\nb"),
];

fn assert_bars(rt: &impl Abort, alloc: Global, texts: &[(&[u8], &[u8], &[u8])]) {
    for (place, (text, between_tabs, between_bars)) in texts.iter().enumerate() {
        let alone = is_written(alloc, Some(*text), 9, between_tabs);
        let escaped = is_written(alloc, Some(*text), 124, between_bars);
        assert!(rt; alone && escaped, "case {place} of 1");
    }
}

#[test]
fn a_bar_is_escaped_where_it_is_the_delimiter(rt: HostRuntime) {
    assert_bars(&rt, rt.alloc(), WITH_BARS);
}

/// Puts pieces onto a page between bars, if they have room.
fn put_pieces(page: &mut PageBuf, pieces: &[&[u8]]) -> bool {
    for piece in pieces {
        if field_size(Some(*piece), 124) > page.free() {
            return false;
        }
        put_piece(page, piece, 124);
    }
    true
}

/// Puts pieces onto a page between bars, and then a null field.
fn put_pieces_and_null(page: &mut PageBuf, pieces: &[&[u8]], text: &[u8], free: usize) -> bool {
    if !put_pieces(page, pieces) || page.text() != text || page.free() != free || free < 2 {
        return false;
    }
    put_null(page);
    true
}

const PIECES: &[&[u8]] = &[b"a|", b"\tb\\", b"c"];

#[test]
fn pieces_and_nulls_are_appended(rt: HostRuntime) {
    let mut page = PageBuf::with_room(rt.alloc(), 20).expect(&rt, "memory");
    assert!(rt; put_pieces_and_null(&mut page, PIECES, b"a\\|\\tb\\\\c", 11));
    assert!(rt; page.text() == b"a\\|\\tb\\\\c\\N".as_slice());
}

/// Texts, each with a delimiter, and how they are written with it.
const KEPT: &[(&[u8], u8, &[u8])] = &[
    (b"plain", 9, b"plain"),
    (b"", 9, b""),
    (b"a|b\tc", 9, b"a|b\\tc"),
    (b"a|b\tc", 124, b"a\\|b\\tc"),
    (b"|\n\\", 124, b"\\|\\n\\\\"),
    (b"", 124, b""),
];

fn push_all(texts: &mut WrittenTexts, kept: &[(&[u8], u8, &[u8])]) -> bool {
    for (text, delimiter, _) in kept {
        if texts.push(text, *delimiter).is_err() {
            return false;
        }
    }
    true
}

fn holds_all(texts: &WrittenTexts, kept: &[(&[u8], u8, &[u8])]) -> bool {
    if texts.len() != kept.len() || texts.is_empty() {
        return false;
    }
    for (place, (_, _, written)) in kept.iter().enumerate() {
        if texts.get(place) != *written {
            return false;
        }
    }
    true
}

// Each text is read back as it was written, with the escapes of its own delimiter. Other texts stay as they are.
#[test]
fn written_texts_are_kept_as_they_are_written(rt: HostRuntime) {
    let mut texts = WrittenTexts::new(rt.alloc());
    assert!(rt; texts.is_empty());
    assert!(rt; push_all(&mut texts, KEPT));
    assert!(rt; texts.len() == 6);
    assert!(rt; holds_all(&texts, KEPT));
}

fn crosses_threads<T: Send + Sync>(_value: &T) {}

#[test]
fn written_texts_cross_threads(rt: HostRuntime) {
    crosses_threads(&WrittenTexts::new(rt.alloc()));
}
