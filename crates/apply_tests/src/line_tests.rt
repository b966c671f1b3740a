//! Line bodies that are worked out by hand from the list of escapes.

ghost use Rattle.row_text.specs.Fields.{IsDelimiter};

use row_text::{Fields, SplitFault, next_line, split_line};
use std::alloc::Global;

/// Returns where a line goes wrong; None if it is a line body, or memory runs out.
fn bad_at(alloc: Global, line: &[u8], delimiter: u8) -> Option<usize>
    requires { IsDelimiter delimiter }
{
    match split_line(alloc, line, delimiter) {
        Err(SplitFault::BadAt { at }) => Some(at),
        _ => None,
    }
}

/// Tells whether fields are the wanted ones.
fn are(fields: &Fields, wanted: &[Option<&[u8]>]) -> bool {
    if fields.len() != wanted.len() {
        return false;
    }
    for index in 0..fields.len() {
        if fields.get(index) != wanted[index] {
            return false;
        }
    }
    true
}

/// Tells whether a line has the wanted fields.
fn has_fields(alloc: Global, line: &[u8], delimiter: u8, wanted: &[Option<&[u8]>]) -> bool
    requires { IsDelimiter delimiter }
{
    match split_line(alloc, line, delimiter) {
        Ok(fields) => are(&fields, wanted),
        Err(_) => false,
    }
}

#[test]
fn lines_have_their_fields(rt: HostRuntime) {
    let alloc = rt.alloc();
    assert!(&rt; has_fields(alloc, b"", 9, &[Some(b"")]));
    assert!(&rt; has_fields(alloc, b"\\N", 9, &[None]));
    assert!(&rt; has_fields(alloc, b"x\t", 9, &[Some(b"x"), Some(b"")]));
    assert!(&rt; has_fields(alloc, b"\t\t", 9, &[Some(b""), Some(b""), Some(b"")]));
    assert!(&rt;
        has_fields(
            alloc,
            b"1\t\\N\ta\\tb\\\\",
            9,
            &[Some(b"1"), None, Some(b"a\tb\\")]
        )
    );
    assert!(&rt;
        has_fields(
            alloc,
            b"a|\\||\\N|",
            124,
            &[Some(b"a"), Some(b"|"), None, Some(b"")]
        )
    );
    assert!(&rt; has_fields(alloc, b"a|b", 9, &[Some(b"a|b")]));
    assert!(&rt;
        has_fields(
            alloc,
            b"\\b\\t\\n\\v\\f\\r",
            9,
            &[Some(b"\x08\t\n\x0b\x0c\r")]
        )
    );
}

#[test]
fn lines_go_wrong_where_they_do(rt: HostRuntime) {
    let alloc = rt.alloc();
    assert!(&rt; bad_at(alloc, b"a\\x", 9) == Some(2));
    assert!(&rt; bad_at(alloc, b"\\Nb", 9) == Some(2));
    assert!(&rt; bad_at(alloc, b"a\\N", 9) == Some(2));
    assert!(&rt; bad_at(alloc, b"\\N\\N", 9) == Some(2));
    assert!(&rt; bad_at(alloc, b"a\\", 9) == Some(2));
    assert!(&rt; bad_at(alloc, b"\\|", 9) == Some(1));
    assert!(&rt; bad_at(alloc, b"ab\n", 9) == Some(2));
    assert!(&rt; bad_at(alloc, b"1\tab\rc", 9) == Some(4));
    assert!(&rt; bad_at(alloc, b"1|a\tb", 124) == Some(3));
    assert!(&rt; bad_at(alloc, b"1\t\\N\t\\n", 9) == None);
}

#[test]
fn lines_end_at_their_line_feed(rt: HostRuntime) {
    let Some(line) = next_line(b"a\nbc\nd", 2) else {
        return assert!(&rt; false);
    };
    assert!(&rt; line.start == 2 && line.end == 4);
    assert!(&rt; next_line(b"a\nbc\nd", 5).is_none());
    assert!(&rt; next_line(b"", 0).is_none());
}
