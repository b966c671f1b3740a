//! Rows in CSV, worked out by hand after RFC 4180, section 2.

use csv_face::{CsvFault, from_csv, from_csv_named, names_text, to_csv};
use schema_model::Text;

/// A line with a comma, a null, the text \N and an empty text, and a line with quotes, line ends and a backslash after the first byte.
#[test]
fn rows_are_written_and_read_back(rt: HostRuntime) {
    let text = b"1\ta,b\t\\N\t\\\\N\t\n2\t\"q\"\tx\\\\y\tl\\nm\t\\r\n".as_slice();
    let csv = to_csv(rt.alloc(), text, b'\t').expect(&rt, "ample memory");
    assert!(rt;
        csv.as_slice() == b"1,\"a,b\",\\N,\\\\N,\n2,\"\"\"q\"\"\",x\\y,\"l\nm\",\"\r\"\n".as_slice()
    );
    let back = from_csv(rt.alloc(), &csv, b'\t', 5).expect(&rt, "no record is bad");
    assert!(rt; back.as_slice() == text);
}

/// A bar is escaped in a line. Then a tab is no delimiter.
#[test]
fn rows_with_bars_are_written(rt: HostRuntime) {
    let text = b"7|a\\|b|c\\td\n".as_slice();
    let csv = to_csv(rt.alloc(), text, b'|').expect(&rt, "ample memory");
    assert!(rt; csv.as_slice() == b"7,a|b,c\td\n".as_slice());
}

/// Lines of more than two blocks that stand alike in CSV but for the commas, with a null in each, then one that doesn't, and one more.
#[test]
fn lines_that_stand_alike_are_written(rt: HostRuntime) {
    let text =
        b"17\t\\N\ta word\t-3.25\n17\t\\N\ta word\t-3.25\n17\t\\N\ta word\t-3.25\n17\t\\N\ta word\t-3.25\n17\t\\N\ta word\t-3.25\n17\t\\N\ta word\t-3.25\n17\t\\N\ta word\t-3.25\n17\t\\N\ta word\t-3.25\n18\t\\\\N\ta, b\t\\\\\n17\t\\N\ta word\t-3.25\n".as_slice();
    let csv = to_csv(rt.alloc(), text, b'\t').expect(&rt, "ample memory");
    assert!(rt;
        csv.as_slice()
            == b"17,\\N,a word,-3.25\n17,\\N,a word,-3.25\n17,\\N,a word,-3.25\n17,\\N,a word,-3.25\n17,\\N,a word,-3.25\n17,\\N,a word,-3.25\n17,\\N,a word,-3.25\n17,\\N,a word,-3.25\n18,\\\\N,\"a, b\",\\\\\n17,\\N,a word,-3.25\n".as_slice()
    );
}

/// Lines of one empty field, each of which is two quotes in CSV, before, between and after a line of more than a block.
#[test]
fn empty_lines_are_written(rt: HostRuntime) {
    let text =
        b"\nseventeen seventeen seventeen seventeen seventeen seventeen seventeen seventeen \n\nseventeen seventeen seventeen seventeen seventeen seventeen seventeen seventeen \n".as_slice();
    let csv = to_csv(rt.alloc(), text, b'\t').expect(&rt, "ample memory");
    assert!(rt;
        csv.as_slice()
            == b"\"\"\nseventeen seventeen seventeen seventeen seventeen seventeen seventeen seventeen \n\"\"\nseventeen seventeen seventeen seventeen seventeen seventeen seventeen seventeen \n".as_slice()
    );
}

/// Line ends of two bytes, unneeded quotes, and a last record without a line end.
#[test]
fn other_spellings_are_read(rt: HostRuntime) {
    let text = from_csv(rt.alloc(), b"1,\"a\"\r\n\"2\",b", b'\t', 2).expect(
        &rt,
        "no record is bad",
    );
    assert!(rt; text.as_slice() == b"1\ta\n2\tb\n".as_slice());
}

/// The first bad record is told, for a bad field or a wrong number of fields.
#[test]
fn bad_records_are_told(rt: HostRuntime) {
    let field = from_csv(rt.alloc(), b"1,\\x\n2\n", b'\t', 2);
    assert!(rt; matches!(field, Err(CsvFault::BadRecord { number: 1 })));
    let fewer = from_csv(rt.alloc(), b"1,a\n2\n3,\\\n", b'\t', 2);
    assert!(rt; matches!(fewer, Err(CsvFault::BadRecord { number: 2 })));
    let more = from_csv(rt.alloc(), b"1\n2\n3,4\n", b'\t', 1);
    assert!(rt; matches!(more, Err(CsvFault::BadRecord { number: 3 })));
}

/// Names are the first record, and what stands after them is read back.
#[test]
fn names_are_written_and_read_back(rt: HostRuntime) {
    let names = [
        Text::of(rt.alloc(), "id").expect(&rt, "ample memory"),
        Text::of(rt.alloc(), "city").expect(&rt, "ample memory"),
    ];
    let mut csv = names_text(rt.alloc(), names.as_slice()).expect(&rt, "ample memory");
    assert!(rt; csv.as_slice() == b"id,city\n".as_slice());
    csv.extend_from_slice(b"7,Rome\n")
        .expect(&rt, "ample memory");
    let back = from_csv_named(rt.alloc(), &csv, b'\t', names.as_slice());
    let back = back.expect(&rt, "no record is bad");
    assert!(rt; back.as_slice() == b"7\tRome\n".as_slice());
}

/// Record 1 is bad where it isn't the names, and the rows are counted after it.
#[test]
fn other_first_records_are_bad(rt: HostRuntime) {
    let names = [
        Text::of(rt.alloc(), "id").expect(&rt, "ample memory"),
        Text::of(rt.alloc(), "city").expect(&rt, "ample memory"),
    ];
    let none = from_csv_named(rt.alloc(), b"", b'\t', names.as_slice());
    assert!(rt; matches!(none, Err(CsvFault::BadRecord { number: 1 })));
    let row = from_csv_named(rt.alloc(), b"7,Rome\n", b'\t', names.as_slice());
    assert!(rt; matches!(row, Err(CsvFault::BadRecord { number: 1 })));
    let turned = from_csv_named(rt.alloc(), b"city,id\n", b'\t', names.as_slice());
    assert!(rt; matches!(turned, Err(CsvFault::BadRecord { number: 1 })));
    let fewer = from_csv_named(rt.alloc(), b"id,city\n7\n", b'\t', names.as_slice());
    assert!(rt; matches!(fewer, Err(CsvFault::BadRecord { number: 2 })));
}
