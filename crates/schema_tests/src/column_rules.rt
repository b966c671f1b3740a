//! The rules of keys, of columns that change and of drawn values, each at its first bound and one past it. The expected places follow
//! from the wording of the rules.

use crate::cases::{Told, fault_of, try_rule, try_text, try_texts, weights};
use schema_check::{CheckFault, check};
use schema_facts::Dictionaries;
use schema_model::{Column, Columns, Kind, Leaf, Phase, Phases, Table, Text};
use schema_read::read_schema;
use std::alloc::Global;
use std::process::Abort;

/// The beginning of a table of two columns.
const TABLE_FRONT: &str =
    "seed=1\nunits=2\ntable=[{name='t',rows=1,insert=1,column=[{name='id',kind=";

const KEYS: [(&str, Told); 7] = [
    ("'key',base=0},{name='other',kind='born'", None),
    (
        "'key',base=4611686018427387904},{name='other',kind='born'",
        None,
    ),
    ("'key',base=-1},{name='other',kind='born'", Some((5, 1, 1))),
    (
        "'key',base=4611686018427387905},{name='other',kind='born'",
        Some((5, 1, 1)),
    ),
    ("'born'},{name='other',kind='key',base=1", Some((5, 1, 1))),
    (
        "'key',base=1},{name='other',kind='key',base=1",
        Some((5, 1, 2)),
    ),
    ("'key',base=1,changes=true", Some((25, 1, 1))),
];

#[test]
fn keys(rt: HostRuntime) {
    try_texts(&rt, rt.alloc(), TABLE_FRONT, &KEYS, "}]}]");
}

/// A key, and a pick whose `changes` follows.
const WORD: &str =
    "seed=1\nunits=2\ntable=[{name='t',rows=1,insert=1,column=[{name='id',kind='key',base=1},{name='word',kind='pick',entries=['x'],weights=[1],changes=";

/// The unit of the last change, and the beginning of a fourth column.
const FOURTH: &str = "},{name='unit',kind='changed'},{name='c',kind=";

/// Fourth columns that cite the pick, or another column.
const OF_WORD: &str = "'template',parts=[{column='word'}]";

const OF_UNIT: &str = "'template',parts=[{column='unit'}]";

const OF_KEY: &str = "'template',parts=[{column='id'}]";

const CASE: &str = "'case',on='word',branches=[{kind='date',lo='1970-01-02',hi='1970-01-03'}]";

const BORN_DATE: &str = "'born_date',start='2024-02-28'";

const CHANGED_DATE: &str = "'changed_date',start='2024-02-28'";

/// A fourth column of dates, and a template that cites it.
const OF_BORN_DATE: &str =
    "'born_date',start='2024-02-28'},{name='d',kind='template',parts=[{column='c'}]";

const OF_CHANGED_DATE: &str =
    "'changed_date',start='2024-02-28'},{name='d',kind='template',parts=[{column='c'}]";

/// A fourth column, whether the pick changes, whether the fourth column changes, and what is told.
type Fourth = (&'static str, bool, bool, Told);

const FOURTHS: [Fourth; 21] = [
    ("'pick',entries=['x'],weights=[1]", true, true, None),
    (OF_UNIT, true, true, None),
    (CASE, true, true, None),
    ("'born'", true, true, Some((25, 1, 4))),
    ("'changed'", true, true, Some((25, 1, 4))),
    (BORN_DATE, true, true, Some((25, 1, 4))),
    (CHANGED_DATE, true, true, Some((25, 1, 4))),
    // A citation of a column that moves is told if the citing column doesn't change.
    (OF_WORD, false, false, None),
    (OF_WORD, true, false, Some((17, 1, 4))),
    (OF_WORD, true, true, None),
    (OF_WORD, false, true, None),
    (OF_UNIT, false, false, Some((17, 1, 4))),
    (OF_UNIT, false, true, None),
    (OF_KEY, true, false, None),
    (OF_BORN_DATE, false, false, None),
    (OF_CHANGED_DATE, false, false, Some((17, 1, 5))),
    (OF_CHANGED_DATE, false, true, None),
    (CASE, false, false, None),
    (CASE, true, false, Some((17, 1, 4))),
    (CASE, true, true, None),
    (CASE, false, true, None),
];

fn try_fourths(rt: &impl Abort, alloc: Global, cases: &[Fourth]) {
    for (kind, word_changes, changes, told) in cases {
        let end = if *changes {
            ",changes=true}]}]"
        } else {
            "}]}]"
        };
        let word = if *word_changes { "true" } else { "false" };
        try_text(rt, alloc, &[WORD, word, FOURTH, kind, end], *told);
    }
}

#[test]
fn columns_that_change(rt: HostRuntime) {
    try_fourths(&rt, rt.alloc(), &FOURTHS);
}

/// Two tables. The second has a drawn value in its third column.
const DRAWN: &str =
    "seed=1\nunits=2\ntable=[{name='t',rows=1,insert=1,column=[{name='id',kind='key',base=1},{name='born',kind='born'}]},{name='u',rows=1,insert=1,column=[{name='id',kind='key',base=1},{name='born',kind='born'},{name='drawn',kind=";

/// The same two tables, with the name `c` for the third column.
const DRAWN_NAMED: &str =
    "seed=1\nunits=2\ntable=[{name='t',rows=1,insert=1,column=[{name='id',kind='key',base=1},{name='born',kind='born'}]},{name='u',rows=1,insert=1,column=[{name='id',kind='key',base=1},{name='born',kind='born'},{name='c',kind=";

const RANGES: [(&str, bool); 19] = [
    ("'int',lo=5,hi=5,step=1", true),
    ("'int',lo=5,hi=4,step=1", false),
    ("'int',lo=0,hi=9223372036854775807,step=1", true),
    ("'int',lo=-1,hi=9223372036854775807,step=1", false),
    ("'int',lo=-1,hi=9223372036854775806,step=1", true),
    ("'int',lo=-9223372036854775808,hi=-1,step=1", true),
    ("'int',lo=-9223372036854775808,hi=0,step=1", false),
    (
        "'int',lo=-9223372036854775808,hi=9223372036854775807,step=1",
        false,
    ),
    (
        "'int',lo=9223372036854775807,hi=-9223372036854775808,step=1",
        false,
    ),
    ("'int',lo=1,hi=2,step=9223372036854775807", true),
    ("'int',lo=1,hi=2,step=0", false),
    ("'int',lo=1,hi=2,step=-1", false),
    ("'fixed',lo=5,hi=5,decimals=0", true),
    ("'fixed',lo=5,hi=4,decimals=0", false),
    ("'fixed',lo=5,hi=5,decimals=9", true),
    ("'fixed',lo=5,hi=5,decimals=10", false),
    ("'fixed',lo=5,hi=5,decimals=-1", false),
    ("'fixed',lo=0,hi=9223372036854775807,decimals=2", true),
    ("'fixed',lo=-1,hi=9223372036854775807,decimals=2", false),
];

fn push(rt: &impl Abort, alloc: Global, columns: &mut Columns, name: &str, kind: Kind) {
    let name = Text::of(alloc, name).expect(rt, "memory");
    let column = Column {
        name,
        kind,
        changes: false,
        null: 0,
    };
    columns.push(column).expect(rt, "memory");
}

/// Makes three columns: a key, units of birth, and one of a kind.
fn columns_with(rt: &impl Abort, alloc: Global, kind: Kind) -> Columns {
    let mut columns = Columns::new(alloc);
    let (base, scramble) = (1, false);
    push(rt, alloc, &mut columns, "id", Kind::Key { base, scramble });
    push(rt, alloc, &mut columns, "born", Kind::Born);
    push(rt, alloc, &mut columns, "drawn", kind);
    columns
}

const ONE_TABLE: &[u8] =
    b"seed=1\nunits=2\ntable=[{name='t',rows=1,insert=1,column=[{name='id',kind='key',base=1},{name='born',kind='born'}]}]";

// 0001-01-01 is day -719,162 from 1970-01-01, and 9999-12-31 is day 2,932,896. No text names a day before or after them.
const DAYS: [(i32, i32, Told); 6] = [
    (0, 0, None),
    (1, 0, Some((10, 2, 3))),
    (-719_162, 2_932_896, None),
    (-719_163, 0, Some((10, 2, 3))),
    (0, 2_932_897, Some((10, 2, 3))),
    (i32::MIN, i32::MAX, Some((10, 2, 3))),
];

/// Dates of units, up to unit 2, and whether they are of the years 1 to 9999 with a step of 0 to 3,660.
const UNIT_DATES: [(&str, bool); 12] = [
    ("'born_date',start='9999-12-29'", true),
    ("'born_date',start='9999-12-30'", false),
    ("'born_date',start='9999-12-31',step=0", true),
    ("'born_date',start='0001-01-01',step=3660", true),
    ("'born_date',start='2024-02-28',step=3660", true),
    ("'born_date',start='2024-02-28',step=3661", false),
    ("'born_date',start='2024-02-28',step=-1", false),
    (
        "'born_date',start='2024-02-28',step=9223372036854775807",
        false,
    ),
    ("'changed_date',start='9999-12-29'", true),
    ("'changed_date',start='9999-12-30'", false),
    ("'changed_date',start='2024-02-28',step=0", true),
    ("'changed_date',start='2024-02-28',step=3661", false),
];

// 0001-01-01 is day -719,162, and 9999-12-31 is day 2,932,896: 3,652,058 days later. No text names a day before it.
const UNIT_DAYS: [(i32, i64, Told); 6] = [
    (-719_162, 1, None),
    (-719_163, 1, Some((26, 2, 3))),
    (2_932_894, 1, None),
    (2_932_895, 1, Some((26, 2, 3))),
    (i32::MAX, i64::MAX, Some((26, 2, 3))),
    (i32::MIN, i64::MIN, Some((26, 2, 3))),
];

fn try_unit_days(rt: &impl Abort, alloc: Global, cases: &[(i32, i64, Told)]) {
    for (start, step, told) in cases {
        let (start, step) = (*start, *step);
        let kinds = [
            Kind::BornDate { start, step },
            Kind::ChangedDate { start, step },
        ];
        for kind in kinds {
            assert!(rt;
                fault_of_third(rt, alloc, kind) == fault_of(*told),
                "day {start} and {step} days a unit"
            );
        }
    }
}

#[test]
fn dates_of_units(rt: HostRuntime) {
    let alloc = rt.alloc();
    try_rule(&rt, alloc, (26, 2, 3), DRAWN, &UNIT_DATES, "}]}]");
    try_unit_days(&rt, alloc, &UNIT_DAYS);
}

/// Third columns of the second table, which may be cited, and parts of a fourth one that cites them. Whole numbers can be padded, up to 64
/// bytes.
const PADDED: [(&str, &str, Told); 17] = [
    ("'int',lo=-5,hi=5", "[{column='c',width=1}]", None),
    ("'int',lo=-5,hi=5", "[{column='c',width=64}]", None),
    (
        "'int',lo=-5,hi=5",
        "[{column='c',width=0}]",
        Some((29, 2, 4)),
    ),
    (
        "'int',lo=-5,hi=5",
        "[{column='c',width=-1}]",
        Some((29, 2, 4)),
    ),
    (
        "'int',lo=-5,hi=5",
        "[{column='c',width=65}]",
        Some((29, 2, 4)),
    ),
    (
        "'int',lo=-5,hi=5",
        "[{column='c',width=-9223372036854775808}]",
        Some((29, 2, 4)),
    ),
    (
        "'int',lo=-5,hi=5",
        "['no. ',{column='c',width=2},{column='c',width=9223372036854775807}]",
        Some((29, 2, 4)),
    ),
    ("'skew',lo=1,size=2,power=1", "[{column='c',width=3}]", None),
    ("'ref',table='t',window=0", "[{column='c',width=3}]", None),
    (
        "'born'",
        "[{column='id',width=3},{column='c',width=3}]",
        None,
    ),
    ("'changed'", "[{column='born',width=3}]", None),
    // Only whole numbers are padded.
    (
        "'fixed',lo=1,hi=2,decimals=1",
        "[{column='c'},{column='c',width=3}]",
        Some((29, 2, 4)),
    ),
    (
        "'date',lo='2024-01-01',hi='2024-01-02'",
        "[{column='c',width=12}]",
        Some((29, 2, 4)),
    ),
    (
        "'pick',entries=['1']",
        "[{column='c',width=3}]",
        Some((29, 2, 4)),
    ),
    // Earlier rules come first.
    ("'born'", "[{column='none',width=65}]", Some((15, 2, 4))),
    ("'born'", "[{column='later',width=65}]", Some((15, 2, 4))),
    ("'changed'", "[{column='c',width=65}]", Some((17, 2, 4))),
];

fn try_padded(rt: &impl Abort, alloc: Global, cases: &[(&str, &str, Told)]) {
    for (kind, parts, told) in cases {
        let template = "},{name='later',kind='template',parts=";
        try_text(
            rt,
            alloc,
            &[DRAWN_NAMED, kind, template, parts, "}]}]"],
            *told,
        );
    }
}

#[test]
fn padded_parts(rt: HostRuntime) {
    try_padded(&rt, rt.alloc(), &PADDED);
}

/// Makes the table `u`, with a row born at each unit.
fn table_of(rt: &impl Abort, alloc: Global, columns: Columns) -> Table {
    let name = Text::of(alloc, "u").expect(rt, "memory");
    let mut insert = Phases::new(alloc);
    insert.push(Phase { from: 1, rate: 1 }).expect(rt, "memory");
    Table {
        name,
        rows: 1,
        insert,
        life: None,
        update: None,
        columns,
    }
}

/// Returns the first fault of a schema whose second table has a third column of this kind.
fn fault_of_third(rt: &impl Abort, alloc: Global, kind: Kind) -> Option<CheckFault> {
    let mut schema = read_schema(alloc, ONE_TABLE).expect(rt, "no schema");
    let table = table_of(rt, alloc, columns_with(rt, alloc, kind));
    schema.tables.push(table).expect(rt, "memory");
    check(alloc, schema, Dictionaries::new(alloc)).err()
}

fn try_days(rt: &impl Abort, alloc: Global, cases: &[(i32, i32, Told)]) {
    for (lo, hi, told) in cases {
        assert!(rt;
            fault_of_third(rt, alloc, Kind::Leaf(Leaf::Date { lo: *lo, hi: *hi }))
                == fault_of(*told),
            "day {lo} to day {hi}"
        );
    }
}

/// The number of entries, two runs of weights, and what is told. A run is a number of weights, and the weight.
type Entries = (usize, (usize, i64), (usize, i64), Told);

// The last weights add up to 2^64 + 1.
const ENTRIES: [Entries; 12] = [
    (0, (0, 1), (0, 1), Some((11, 2, 3))),
    (1, (1, 1), (0, 1), None),
    (256, (256, 1), (0, 1), None),
    (257, (257, 1), (0, 1), Some((11, 2, 3))),
    (256, (255, 1), (0, 1), Some((11, 2, 3))),
    (2, (2, 1), (1, 1), Some((11, 2, 3))),
    (2, (1, 1), (1, 0), Some((11, 2, 3))),
    (2, (1, 1), (1, -1), Some((11, 2, 3))),
    (1, (1, 1 << 32), (0, 1), None),
    (2, (1, 1), (1, (1 << 32) - 1), None),
    (2, (1, 1), (1, 1 << 32), Some((11, 2, 3))),
    (3, (1, 3), (2, i64::MAX), Some((11, 2, 3))),
];

fn try_entries(rt: &impl Abort, alloc: Global, cases: &[Entries]) {
    for (entries, first, second, told) in cases {
        let entries = "'x',".repeat(alloc, *entries).expect(rt, "memory");
        let weights = weights(rt, alloc, *first, *second);
        let (entries, weights) = (entries.as_str(), weights.as_str());
        let pieces = [
            DRAWN,
            "'pick',entries=[",
            entries,
            "],weights=[",
            weights,
            "]}]}]",
        ];
        try_text(rt, alloc, &pieces, *told);
    }
}

const SKEWS: [(&str, bool); 13] = [
    ("'skew',lo=1,size=1,power=1", true),
    ("'skew',lo=1,size=0,power=1", false),
    ("'skew',lo=1,size=-1,power=1", false),
    ("'skew',lo=1,size=4096,power=3", true),
    ("'skew',lo=1,size=4097,power=3", false),
    ("'skew',lo=1,size=1,power=0", false),
    ("'skew',lo=1,size=1,power=4", false),
    ("'skew',lo=9223372036854775807,size=1,power=1", true),
    ("'skew',lo=9223372036854775807,size=2,power=1", false),
    ("'skew',lo=9223372036854771712,size=4096,power=1", true),
    ("'skew',lo=9223372036854771713,size=4096,power=1", false),
    ("'skew',lo=-9223372036854775808,size=4096,power=1", true),
    (
        "'skew',lo=-9223372036854775808,size=-9223372036854775808,power=1",
        false,
    ),
];

const CHARACTERS: [(&str, bool); 6] = [
    ("'chars',alphabet='a',lo=0,hi=1000", true),
    ("'chars',alphabet='a',lo=0,hi=1001", false),
    ("'chars',alphabet='é',lo=1,hi=1", true),
    ("'chars',alphabet='a',lo=2,hi=1", false),
    ("'chars',alphabet='a',lo=-1,hi=1", false),
    ("'chars',alphabet='',lo=0,hi=1", false),
];

#[test]
fn drawn_values(rt: HostRuntime) {
    let alloc = rt.alloc();
    try_rule(&rt, alloc, (9, 2, 3), DRAWN, &RANGES, "}]}]");
    try_days(&rt, alloc, &DAYS);
    try_entries(&rt, alloc, &ENTRIES);
    try_rule(&rt, alloc, (12, 2, 3), DRAWN, &SKEWS, "}]}]");
    try_rule(&rt, alloc, (14, 2, 3), DRAWN, &CHARACTERS, "}]}]");
}

/// A date and a whole number, both with ranges that end before they begin. The number of the table's rows stands before.
const TWICE_BROKEN: &str =
    ",insert=1,column=[{name='id',kind='key',base=1},{name='born',kind='born'},{name='days',kind='date',lo='1970-01-02',hi='1970-01-01'},{name='numbers',kind='int',lo=1,hi=0,step=1}]}]";

// An earlier rule at a later column is told before a later rule at an earlier column.
#[test]
fn rules_of_drawn_values_in_order(rt: HostRuntime) {
    let cases = [("1", Some((9, 1, 4))), ("-1", Some((6, 1, 0)))];
    let front = "seed=1\nunits=2\ntable=[{name='t',rows=";
    try_texts(&rt, rt.alloc(), front, &cases, TWICE_BROKEN);
}
