//! The rules of schemas and of tables, each at its first bound and one past it. The expected places follow from the wording of the
//! rules.

use crate::cases::{Told, joined, numbered, try_rule, try_text, try_texts};
use std::alloc::Global;
use std::process::Abort;

/// The beginning of the table One, up to its name. It has a key and units of birth, and a row is born at each unit.
const NAMED: &str = "seed=1\nunits=2\ntable=[{name='";

const ONE: &str =
    "',rows=1,insert=1,column=[{name='id',kind='key',base=1},{name='born',kind='born'}]}]";

/// The table One with the name `t`. Other keys of the schema stand before it.
const ONE_TABLE: &str =
    "table=[{name='t',rows=1,insert=1,column=[{name='id',kind='key',base=1},{name='born',kind='born'}]}]";

const BOUNDS: [(&str, Told); 6] = [
    ("seed=0\nunits=0\n", None),
    ("seed=9223372036854775807\nunits=10000\n", None),
    ("seed=-1\nunits=2\n", Some((1, 0, 0))),
    ("seed=1\nunits=-1\n", Some((1, 0, 0))),
    ("seed=1\nunits=10001\n", Some((1, 0, 0))),
    ("seed=1\nunits=2\ndelimiter='bar'\n", None),
];

#[test]
fn schema_bounds(rt: HostRuntime) {
    try_texts(&rt, rt.alloc(), "", &BOUNDS, ONE_TABLE);
}

/// Makes `count` columns: a key, and then units of birth.
fn columns(rt: &impl Abort, alloc: Global, count: usize) -> String {
    if count == 0 {
        return String::new(alloc);
    }
    let born = numbered(
        rt,
        alloc,
        "{name='n",
        count.wrapping_sub(1),
        "',kind='born'},",
    );
    joined(
        rt,
        alloc,
        &["{name='id',kind='key',base=1},", born.as_str()],
    )
}

/// The number of tables, the number of columns of each, and what is told.
const NUMBERS: [(usize, usize, Told); 6] = [
    (0, 1, Some((2, 0, 0))),
    (64, 1, None),
    (65, 1, Some((2, 0, 0))),
    (2, 0, Some((4, 1, 0))),
    (1, 64, None),
    (1, 65, Some((4, 1, 0))),
];

fn try_numbers(rt: &impl Abort, alloc: Global, cases: &[(usize, usize, Told)]) {
    for (tables, count, told) in cases {
        let columns = columns(rt, alloc, *count);
        let end = joined(
            rt,
            alloc,
            &["',rows=1,insert=1,column=[", columns.as_str(), "]},"],
        );
        let tables = numbered(rt, alloc, "{name='n", *tables, end.as_str());
        let pieces = ["seed=1\nunits=2\ntable=[", tables.as_str(), "]"];
        try_text(rt, alloc, &pieces, *told);
    }
}

#[test]
fn numbers_of_tables_and_columns(rt: HostRuntime) {
    try_numbers(&rt, rt.alloc(), &NUMBERS);
}

const NAMES: [(&str, bool); 10] = [
    ("a", true),
    ("a_9z", true),
    ("abcdefghijklmnopqrstuvwxyz_01234", true),
    ("abcdefghijklmnopqrstuvwxyz_012345", false),
    ("", false),
    ("9a", false),
    ("_a", false),
    ("aB", false),
    ("a b", false),
    ("é", false),
];

/// A table up to the name of its second column.
const COLUMN_FRONT: &str =
    "seed=1\nunits=2\ntable=[{name='t',rows=1,insert=1,column=[{name='id',kind='key',base=1},{name='";

/// The table One with the name `t`, and a second table up to its name.
const SECOND: &str =
    "seed=1\nunits=2\ntable=[{name='t',rows=1,insert=1,column=[{name='id',kind='key',base=1},{name='born',kind='born'}]},{name='";

/// Columns of which the third has the name of the first.
const SAME: &str = "born',kind='born'},{name='id',kind='born'},{name='born";

#[test]
fn names(rt: HostRuntime) {
    let alloc = rt.alloc();
    let end = "',kind='born'}]}]";
    try_rule(&rt, alloc, (3, 1, 0), NAMED, &NAMES, ONE);
    try_rule(&rt, alloc, (4, 1, 2), COLUMN_FRONT, &NAMES, end);
    try_rule(
        &rt,
        alloc,
        (3, 2, 0),
        SECOND,
        &[("t", false), ("t1", true)],
        ONE,
    );
    try_text(&rt, alloc, &[COLUMN_FRONT, SAME, end], Some((4, 1, 3)));
}

/// The last unit, the rows at unit 0 and at each later unit, and whether the rule is kept.
const ROWS: [(&str, bool); 10] = [
    ("2\ntable=[{name='t',rows=0,insert=0", true),
    ("2\ntable=[{name='t',rows=1099511627776,insert=0", true),
    ("2\ntable=[{name='t',rows=1099511627777,insert=0", false),
    ("2\ntable=[{name='t',rows=1099511627774,insert=1", true),
    ("2\ntable=[{name='t',rows=1099511627775,insert=1", false),
    ("2\ntable=[{name='t',rows=-1,insert=0", false),
    ("2\ntable=[{name='t',rows=1,insert=-1", false),
    (
        "0\ntable=[{name='t',rows=1,insert=9223372036854775807",
        true,
    ),
    (
        "2\ntable=[{name='t',rows=1,insert=9223372036854775807",
        false,
    ),
    (
        "10000\ntable=[{name='t',rows=9223372036854775807,insert=9223372036854775807",
        false,
    ),
];

/// The columns of the table One.
const COLUMNS: &str = ",column=[{name='id',kind='key',base=1},{name='born',kind='born'}]}]";

/// The table One up to further keys.
const TABLE_FRONT: &str = "seed=1\nunits=2\ntable=[{name='t',rows=1,insert=1,";

const LIVES: [(&str, bool); 8] = [
    ("life=[1,1]", true),
    ("life=[0,1]", false),
    ("life=[-1,1]", false),
    ("life=[2,1]", false),
    ("life=[1,20000]", true),
    ("life=[20000,20000]", true),
    ("life=[1,20001]", false),
    ("life=[-9223372036854775808,9223372036854775807]", false),
];

const UPDATES: [(&str, bool); 6] = [
    ("update=1", true),
    ("update=0", false),
    ("update=-1", false),
    ("update=10000", true),
    ("update=10001", false),
    ("update=9223372036854775807", false),
];

#[test]
fn rows_and_their_lives(rt: HostRuntime) {
    let alloc = rt.alloc();
    try_rule(&rt, alloc, (6, 1, 0), "seed=1\nunits=", &ROWS, COLUMNS);
    try_rule(&rt, alloc, (7, 1, 0), TABLE_FRONT, &LIVES, COLUMNS);
    try_rule(&rt, alloc, (8, 1, 0), TABLE_FRONT, &UPDATES, COLUMNS);
}

/// The table One with a third column of one entry, up to that entry.
const ENTRY_FRONT: &str =
    "seed=1\nunits=2\ntable=[{name='t',rows=1,insert=1,column=[{name='id',kind='key',base=1},{name='born',kind='born'},{name='drawn',kind='pick',entries=['";

// A key takes 20 bytes and a unit of birth 5. Three bytes stand between and after the fields. So 65,508 bytes more make a line of
// 65,536.
const SIZES: [(usize, Told); 3] = [
    (65_508, None),
    (65_509, Some((24, 1, 0))),
    (65_600, Some((24, 1, 0))),
];

fn try_sizes(rt: &impl Abort, alloc: Global, cases: &[(usize, Told)]) {
    for (size, told) in cases {
        let entry = "x".repeat(alloc, *size).expect(rt, "memory");
        let pieces = [ENTRY_FRONT, entry.as_str(), "'],weights=[1]}]}]"];
        try_text(rt, alloc, &pieces, *told);
    }
}

#[test]
fn sizes_of_lines(rt: HostRuntime) {
    try_sizes(&rt, rt.alloc(), &SIZES);
}

/// Two tables with one row born at each later unit. The first, `t`, has -1 rows.
const PLACES: [(&str, Told); 3] = [
    (
        "{name='born',kind='born'},{name='id',kind='key',base=1}]},{name='t',rows=1,insert=1,column=[{name='id',kind='key',base=1},{name='born',kind='born'}",
        Some((3, 2, 0)),
    ),
    (
        "{name='born',kind='born'},{name='id',kind='key',base=1}]},{name='u',rows=1,insert=1,column=[{name='born',kind='born'},{name='id',kind='key',base=1}",
        Some((5, 1, 1)),
    ),
    (
        "{name='id',kind='key',base=1},{name='born',kind='born'}]},{name='u',rows=1,insert=1,column=[{name='born',kind='born'},{name='id',kind='key',base=1}",
        Some((5, 2, 1)),
    ),
];

// An earlier rule at a later place is told before a later rule at an earlier place.
#[test]
fn rules_come_before_places(rt: HostRuntime) {
    let front = "seed=1\nunits=2\ntable=[{name='t',rows=-1,insert=1,column=[";
    try_texts(&rt, rt.alloc(), front, &PLACES, "]}]");
}
