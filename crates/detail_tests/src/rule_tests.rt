//! The rules of detail tables, each at its bounds and one past them. The expected results follow from the wording of the rules.

use crate::fixtures::{SALES, joined, numbered, plan_of};
use detail_plan::{DetailFault, check_detail, read_detail};
use schema_facts::Dictionaries;
use schema_plan::Plan;
use std::alloc::Global;
use std::process::Abort;

/// Returns the number of the first rule that a declaration breaks over a plan, or 0 if it keeps all. No word lists are handed in.
fn told_of(rt: &impl Abort, alloc: Global, plan: &Plan, text: &str) -> u32 {
    let detail = read_detail(alloc, text.as_bytes()).expect(rt, "nothing declared");
    match check_detail(alloc, plan, detail, Dictionaries::new(alloc)) {
        Ok(_) => 0,
        Err(DetailFault::Rule { number }) => number,
        Err(DetailFault::Memory) => panic!(rt; "memory"),
    }
}

/// Asserts what is told of each text over a schema, joined between a front and an end.
fn assert_told(
    rt: &impl Abort,
    alloc: Global,
    schema: &str,
    front: &str,
    cases: &[(&str, u32)],
    end: &str,
) {
    let plan = plan_of(rt, alloc, schema);
    for (inner, due) in cases {
        let text = joined(rt, alloc, &[front, inner, end]);
        let told = told_of(rt, alloc, &plan, text.as_str());
        assert!(rt; told == *due, "{told}: {text}");
    }
}

const COLUMN: &str = "column=[{name='qty',kind='int',lo=5,hi=5}]\n";

/// The keys after the seed and the name.
const PARENT: &str = "parent='customer'\nlo=2\nhi=2\ncolumn=[{name='id',kind='int',lo=5,hi=5}]\n";

/// Seeds and names. A name has at most 32 bytes and is that of no table.
const NAMES: [(&str, u32); 11] = [
    ("seed=0\nname='i'\n", 0),
    ("seed=9223372036854775807\nname='item_2'\n", 0),
    ("seed=-1\nname='item'\n", 1),
    ("seed=1\nname='abcdefghijklmnopqrstuvwxyz_01234'\n", 0),
    ("seed=1\nname='abcdefghijklmnopqrstuvwxyz_012345'\n", 1),
    ("seed=1\nname=''\n", 1),
    ("seed=1\nname='2item'\n", 1),
    ("seed=1\nname='Item'\n", 1),
    ("seed=1\nname='customer'\n", 1),
    ("seed=1\nname='orders'\n", 1),
    ("seed=1\nname='id'\n", 0),
];

const PARENTS: [(&str, u32); 5] = [
    ("parent='customer'\nlo=2\nhi=2\n", 0),
    ("parent='orders'\nlo=2\nhi=2\n", 0),
    ("parent='order'\nlo=2\nhi=2\n", 2),
    ("parent=''\nlo=2\nhi=2\n", 2),
    ("parent='item'\nlo=2\nhi=2\n", 2),
];

/// Numbers of lines of a row.
const LINES: [(&str, u32); 8] = [
    ("parent='customer'\nlo=0\nhi=1\n", 0),
    ("parent='customer'\nlo=1\nhi=1\n", 0),
    ("parent='customer'\nlo=0\nhi=64\n", 0),
    ("parent='customer'\nlo=64\nhi=64\n", 0),
    ("parent='customer'\nlo=0\nhi=0\n", 3),
    ("parent='customer'\nlo=-1\nhi=1\n", 3),
    ("parent='customer'\nlo=2\nhi=1\n", 3),
    ("parent='customer'\nlo=0\nhi=65\n", 3),
];

/// Declarations that break several rules.
const SEVERAL: [(&str, u32); 4] = [
    ("seed=-1\nname='i'\nparent=''\nlo=2\nhi=1\n", 1),
    ("seed=1\nname='i'\nparent=''\nlo=2\nhi=1\n", 2),
    ("seed=1\nname='i'\nparent='customer'\nlo=2\nhi=1\n", 3),
    ("seed=1\nname='i'\nparent='customer'\nlo=1\nhi=1\n", 4),
];

#[test]
fn names_parents_and_numbers_of_lines(rt: HostRuntime) {
    let front = "seed=1\nname='item'\n";
    assert_told(&rt, rt.alloc(), SALES, "", &NAMES, PARENT);
    assert_told(&rt, rt.alloc(), SALES, front, &PARENTS, COLUMN);
    assert_told(&rt, rt.alloc(), SALES, front, &LINES, COLUMN);
    assert_told(&rt, rt.alloc(), SALES, "", &SEVERAL, "column=[]\n");
}

/// The keys before the columns.
const FRONT: &str = "seed=1\nname='item'\nparent='customer'\nlo=2\nhi=2\ncolumn=[";

/// Lists of columns: none, one, or two.
const COLUMNS: [(&str, u32); 13] = [
    ("", 4),
    ("{name='item',kind='int',lo=5,hi=5}", 0),
    ("{name='a',kind='int',lo=5,hi=4}", 4),
    ("{name='a',kind='int',lo=0,hi=9223372036854775807}", 0),
    ("{name='a',kind='int',lo=-1,hi=9223372036854775807}", 4),
    ("{name='a',kind='int',lo=-9223372036854775808,hi=-1}", 0),
    ("{name='a',kind='int',lo=-9223372036854775808,hi=0}", 4),
    ("{name='a',kind='pick',entries=['']}", 0),
    ("{name='a',kind='pick',entries=[]}", 4),
    ("{name='',kind='int',lo=5,hi=5}", 4),
    ("{name='A',kind='pick',entries=['a']}", 4),
    (
        "{name='a',kind='int',lo=5,hi=5},{name='b',kind='pick',entries=['a']}",
        0,
    ),
    (
        "{name='a',kind='int',lo=5,hi=5},{name='a',kind='pick',entries=['a']}",
        4,
    ),
];

/// Lists of columns of the further kinds, each right or with one rule broken. `born` of the parent doesn't move and `changed` does.
const KINDS: [(&str, u32); 49] = [
    ("{name='a',kind='int',lo=5,hi=5,step=1}", 0),
    ("{name='a',kind='int',lo=5,hi=5,step=0}", 4),
    ("{name='a',kind='int',lo=5,hi=5,null=999}", 0),
    ("{name='a',kind='int',lo=5,hi=5,null=1000}", 4),
    ("{name='a',kind='int',lo=5,hi=5,null=-1}", 4),
    ("{name='a',kind='fixed',lo=5,hi=5,decimals=9}", 0),
    ("{name='a',kind='fixed',lo=5,hi=5,decimals=10}", 4),
    ("{name='a',kind='date',lo='0001-01-01',hi='9999-12-31'}", 0),
    ("{name='a',kind='date',lo='2024-02-29',hi='2024-02-28'}", 4),
    ("{name='a',kind='pick',entries=['b'],weights=[0]}", 4),
    ("{name='a',kind='pick',entries=['b'],weights=[1,1]}", 4),
    ("{name='a',kind='skew',lo=1,size=4096,power=3}", 0),
    ("{name='a',kind='skew',lo=1,size=4097,power=3}", 4),
    ("{name='a',kind='chars',alphabet='é',lo=0,hi=0}", 0),
    ("{name='a',kind='chars',alphabet='',lo=0,hi=0}", 4),
    ("{name='a',kind='uuid',changes=true}", 0),
    ("{name='a',kind='parent',column='born'}", 0),
    ("{name='a',kind='parent',column='id',null=999}", 0),
    ("{name='a',kind='parent',column='born',changes=true}", 4),
    ("{name='a',kind='parent',column='changed'}", 4),
    ("{name='a',kind='parent',column=''}", 4),
    ("{name='a',kind='parent',column='a'}", 4),
    (
        "{name='d',kind='date',lo='2024-02-28',hi='2024-02-28'},{name='a',kind='after',of='d',lo=1,hi=30}",
        0,
    ),
    (
        "{name='d',kind='date',lo='2024-02-28',hi='2024-02-28'},{name='a',kind='after',of='d',lo=1,hi=36526}",
        4,
    ),
    (
        "{name='d',kind='date',lo='2024-02-28',hi='9999-12-31'},{name='a',kind='after',of='d',lo=1,hi=1}",
        4,
    ),
    (
        "{name='d',kind='date',lo='2024-02-28',hi='2024-02-28',changes=true},{name='a',kind='after',of='d',lo=1,hi=30}",
        4,
    ),
    (
        "{name='d',kind='date',lo='2024-02-28',hi='2024-02-28',changes=true},{name='a',kind='after',of='d',lo=1,hi=30,changes=true}",
        0,
    ),
    (
        "{name='a',kind='after',of='d',lo=1,hi=30},{name='d',kind='date',lo='2024-02-28',hi='2024-02-28'}",
        4,
    ),
    (
        "{name='b',kind='parent',column='born'},{name='a',kind='after',of='b',lo=1,hi=1}",
        4,
    ),
    ("{name='a',kind='after',of='',lo=1,hi=1}", 4),
    ("{name='a',kind='after',of='a',lo=1,hi=1}", 4),
    (
        "{name='d',kind='date',lo='2124-02-28',hi='2124-02-28'},{name='a',kind='after',of='d',lo=-36525,hi=36525}",
        0,
    ),
    (
        "{name='d',kind='date',lo='2124-02-28',hi='2124-02-28'},{name='a',kind='after',of='d',lo=-36526,hi=1}",
        4,
    ),
    (
        "{name='d',kind='date',lo='2024-02-28',hi='2024-02-28'},{name='a',kind='after',of='d',lo=2,hi=1}",
        4,
    ),
    ("{name='u',kind='uuid'},{name='t',kind='sum',of=['u']}", 4),
    (
        "{name='p',kind='pick',entries=['1']},{name='t',kind='product',of=['p','p']}",
        4,
    ),
    (
        "{name='t',kind='sum',of=['q']},{name='q',kind='int',lo=1,hi=9}",
        4,
    ),
    (
        "{name='q',kind='int',lo=1,hi=9,changes=true},{name='t',kind='product',of=['q','q'],changes=true}",
        0,
    ),
    (
        "{name='q',kind='int',lo=0,hi=1},{name='t',kind='sum',of=['q','q','q','q','q','q','q','q']}",
        0,
    ),
    (
        "{name='q',kind='int',lo=0,hi=1},{name='t',kind='sum',of=['q','q','q','q','q','q','q','q','q']}",
        4,
    ),
    (
        "{name='q',kind='int',lo=0,hi=1},{name='t',kind='product',of=['q','q','q','q','q']}",
        4,
    ),
    (
        "{name='q',kind='int',lo=1,hi=9,null=500},{name='p',kind='fixed',lo=250,hi=250,decimals=2},{name='t',kind='product',of=['q','p']}",
        0,
    ),
    (
        "{name='q',kind='int',lo=1,hi=9,changes=true},{name='t',kind='product',of=['q','q']}",
        4,
    ),
    (
        "{name='q',kind='int',lo=1,hi=9},{name='t',kind='product',of=['q']}",
        4,
    ),
    (
        "{name='q',kind='int',lo=1,hi=9},{name='t',kind='sum',of=['q']}",
        0,
    ),
    (
        "{name='q',kind='int',lo=1,hi=9},{name='t',kind='sum',of=[]}",
        4,
    ),
    (
        "{name='b',kind='parent',column='born'},{name='t',kind='sum',of=['b']}",
        4,
    ),
    (
        "{name='g',kind='int',lo=0,hi=3037000499},{name='t',kind='product',of=['g','g']}",
        0,
    ),
    (
        "{name='g',kind='int',lo=0,hi=3037000500},{name='t',kind='product',of=['g','g']}",
        4,
    ),
];

/// A front, the beginning of a piece, how many pieces there are, the end of a piece, the end of the text, and what is told. Each piece has a
/// number after its beginning.
const COUNTS: [(&str, &str, usize, &str, &str, u32); 4] = [
    ("", "{name='n", 32, "',kind='int',lo=5,hi=5},", "", 0),
    ("", "{name='n", 33, "',kind='int',lo=5,hi=5},", "", 4),
    ("{name='a',kind='pick',entries=[", "'", 256, "',", "]}", 0),
    ("{name='a',kind='pick',entries=[", "'", 257, "',", "]}", 4),
];

fn assert_counts(rt: &impl Abort, alloc: Global, cases: &[(&str, &str, usize, &str, &str, u32)]) {
    for (before, begin, count, end, behind, due) in cases {
        let pieces = numbered(rt, alloc, begin, *count, end);
        let columns = joined(rt, alloc, &[before, pieces.as_str(), behind]);
        assert_told(rt, alloc, SALES, FRONT, &[(columns.as_str(), *due)], "]\n");
    }
}

#[test]
fn columns_have_names_and_choices(rt: HostRuntime) {
    assert_told(&rt, rt.alloc(), SALES, FRONT, &COLUMNS, "]\n");
    assert_told(&rt, rt.alloc(), SALES, FRONT, &KINDS, "]\n");
    assert_counts(&rt, rt.alloc(), &COUNTS);
}

/// Customers and their orders, which show when their customer was born.
const ORDERS: &str = r#"
seed = 1
units = 2
[[table]]
name = "customer"
rows = 1
insert = 1
life = [2, 2]
column = [
    { name = "id", kind = "key", base = 1 },
    { name = "since", kind = "born_date", start = "2024-02-28" },
    { name = "last", kind = "changed_date", start = "2024-02-28" },
    { name = "share", kind = "fixed", lo = 1, hi = 9, decimals = 3 },
    { name = "points", kind = "int", lo = 1, hi = 9, changes = true },
    { name = "card", kind = "uuid", null = 100 },
]
[[table]]
name = "orders"
rows = 1
insert = 1
column = [
    { name = "id", kind = "key", base = 1 },
    { name = "customer", kind = "ref", table = "customer", window = 1 },
    { name = "back", kind = "ref", table = "customer", window = 1, on_delete = "null" },
    { name = "since", kind = "lookup", via = "customer", column = "since" },
    { name = "due", kind = "after", of = "since", lo = 1, hi = 1 },
]
"#;

/// Columns of the parent and columns over them. A column of the parent stands in the parent's table, doesn't move, and is no lookup. It is
/// dated or numeric where the parent's is.
const OF_CUSTOMERS: [(&str, u32); 13] = [
    ("{name='a',kind='parent',column='since'}", 0),
    ("{name='a',kind='parent',column='last'}", 4),
    ("{name='a',kind='parent',column='share'}", 0),
    ("{name='a',kind='parent',column='points'}", 4),
    ("{name='a',kind='parent',column='card'}", 0),
    ("{name='a',kind='parent',column='due'}", 4),
    (
        "{name='s',kind='parent',column='since'},{name='a',kind='after',of='s',lo=1,hi=1}",
        0,
    ),
    (
        "{name='s',kind='parent',column='share'},{name='a',kind='after',of='s',lo=1,hi=1}",
        4,
    ),
    (
        "{name='s',kind='parent',column='share'},{name='t',kind='sum',of=['s','s']}",
        0,
    ),
    (
        "{name='s',kind='parent',column='since'},{name='t',kind='sum',of=['s']}",
        4,
    ),
    (
        "{name='s',kind='parent',column='card'},{name='t',kind='sum',of=['s']}",
        4,
    ),
    (
        "{name='s',kind='parent',column='share'},{name='t',kind='product',of=['s','s','s']}",
        0,
    ),
    (
        "{name='s',kind='parent',column='share'},{name='t',kind='product',of=['s','s','s','s']}",
        4,
    ),
];

const OF_ORDERS: [(&str, u32); 6] = [
    ("{name='a',kind='parent',column='id'}", 0),
    ("{name='a',kind='parent',column='customer'}", 0),
    ("{name='a',kind='parent',column='back'}", 4),
    ("{name='a',kind='parent',column='since'}", 4),
    ("{name='a',kind='parent',column='due'}", 0),
    (
        "{name='d',kind='parent',column='due'},{name='a',kind='after',of='d',lo=-9,hi=9}",
        0,
    ),
];

#[test]
fn columns_of_the_parent_are_shown(rt: HostRuntime) {
    let front = "seed=1\nname='item'\nlo=2\nhi=2\nparent='customer'\ncolumn=[";
    assert_told(&rt, rt.alloc(), ORDERS, front, &OF_CUSTOMERS, "]\n");
    let front = "seed=1\nname='item'\nlo=2\nhi=2\nparent='orders'\ncolumn=[";
    assert_told(&rt, rt.alloc(), ORDERS, front, &OF_ORDERS, "]\n");
}

/// The most lines of a row, the number of columns of numbers, another column, and a column with two equal entries: a text and how often it is
/// repeated. The last number is what is told.
type Long<'a> = (u32, usize, &'a str, &'a str, usize, u32);

/// All lines of a row have at most 65,536 bytes. A line has 24 bytes, and each column its greatest size and one byte more. The size is 20 for
/// whole numbers that are drawn, 21 for numbers with a point and for totals, 10 for dates and 36 for UUIDs. For entries and characters it is
/// that of the longest as it is written. No size is below 2. A column of the parent has the size that it has there.
const LONG: [Long<'static>; 38] = [
    (64, 0, "", "a", 999, 0),
    (64, 0, "", "a", 1000, 5),
    (63, 0, "", "a", 1015, 0),
    (63, 0, "", "a", 1016, 5),
    (1, 0, "", "a", 65_511, 0),
    (1, 0, "", "a", 65_512, 5),
    (64, 1, "", "a", 978, 0),
    (64, 1, "", "a", 979, 5),
    (64, 31, "", "a", 348, 0),
    (64, 31, "", "a", 349, 5),
    (64, 0, "{name='e',kind='pick',entries=['']},", "a", 996, 0),
    (64, 0, "{name='e',kind='pick',entries=['']},", "a", 997, 5),
    (
        64,
        0,
        "{name='e',kind='pick',entries=['a','bcd','']},",
        "a",
        995,
        0,
    ),
    (
        64,
        0,
        "{name='e',kind='pick',entries=['a','bcd','']},",
        "a",
        996,
        5,
    ),
    (64, 0, "", "é", 499, 0),
    (64, 0, "", "é", 500, 5),
    (64, 0, "", "\\", 500, 5),
    (64, 0, "", "|", 999, 0),
    (64, 0, "{name='e',kind='uuid'},", "a", 962, 0),
    (64, 0, "{name='e',kind='uuid'},", "a", 963, 5),
    (
        64,
        0,
        "{name='d',kind='date',lo='2024-02-28',hi='2024-02-28'},",
        "a",
        988,
        0,
    ),
    (
        64,
        0,
        "{name='d',kind='date',lo='2024-02-28',hi='2024-02-28'},",
        "a",
        989,
        5,
    ),
    (
        64,
        0,
        "{name='d',kind='date',lo='2024-02-28',hi='2024-02-28'},{name='e',kind='after',of='d',lo=1,hi=1},",
        "a",
        977,
        0,
    ),
    (
        64,
        0,
        "{name='d',kind='date',lo='2024-02-28',hi='2024-02-28'},{name='e',kind='after',of='d',lo=1,hi=1},",
        "a",
        978,
        5,
    ),
    (
        64,
        0,
        "{name='q',kind='int',lo=1,hi=9},{name='e',kind='sum',of=['q']},",
        "a",
        956,
        0,
    ),
    (
        64,
        0,
        "{name='q',kind='int',lo=1,hi=9},{name='e',kind='sum',of=['q']},",
        "a",
        957,
        5,
    ),
    (
        64,
        0,
        "{name='q',kind='fixed',lo=1,hi=9,decimals=2,null=9},{name='e',kind='product',of=['q','q']},",
        "a",
        955,
        0,
    ),
    (
        64,
        0,
        "{name='q',kind='fixed',lo=1,hi=9,decimals=2,null=9},{name='e',kind='product',of=['q','q']},",
        "a",
        956,
        5,
    ),
    (
        64,
        0,
        "{name='e',kind='skew',lo=1,size=2,power=1,null=9},",
        "a",
        978,
        0,
    ),
    (
        64,
        0,
        "{name='e',kind='skew',lo=1,size=2,power=1,null=9},",
        "a",
        979,
        5,
    ),
    (
        64,
        0,
        "{name='e',kind='chars',alphabet='aé',lo=0,hi=3},",
        "a",
        992,
        0,
    ),
    (
        64,
        0,
        "{name='e',kind='chars',alphabet='aé',lo=0,hi=3},",
        "a",
        993,
        5,
    ),
    (
        64,
        0,
        "{name='e',kind='chars',alphabet='a',lo=0,hi=0},",
        "a",
        996,
        0,
    ),
    (
        64,
        0,
        "{name='e',kind='chars',alphabet='a',lo=0,hi=0},",
        "a",
        997,
        5,
    ),
    (64, 0, "{name='e',kind='parent',column='id'},", "a", 978, 0),
    (64, 0, "{name='e',kind='parent',column='id'},", "a", 979, 5),
    (
        64,
        0,
        "{name='e',kind='parent',column='born'},",
        "a",
        993,
        0,
    ),
    (
        64,
        0,
        "{name='e',kind='parent',column='born'},",
        "a",
        994,
        5,
    ),
];

/// Cases with a bar between two fields.
const WITH_BARS: [Long<'static>; 2] = [(64, 0, "", "|", 499, 0), (64, 0, "", "|", 500, 5)];

fn text_of(rt: &impl Abort, alloc: Global, long: Long<'_>) -> String {
    let (lines, numbers, other, text, times, _) = long;
    let lines = format!(in alloc; "lo=1\nhi={lines}\ncolumn=[").expect(rt, "memory");
    let numbers = numbered(rt, alloc, "{name='n", numbers, "',kind='int',lo=5,hi=5},");
    let entry = text.repeat(alloc, times).expect(rt, "memory");
    let pieces = [
        "seed=1\nname='item'\nparent='customer'\n",
        lines.as_str(),
        numbers.as_str(),
        other,
        "{name='p',kind='pick',entries=['",
        entry.as_str(),
        "','",
        entry.as_str(),
        "']}]\n",
    ];
    joined(rt, alloc, &pieces)
}

fn assert_long(rt: &impl Abort, alloc: Global, plan: &Plan, cases: &[Long<'_>]) {
    for long in cases {
        let text = text_of(rt, alloc, *long);
        let told = told_of(rt, alloc, plan, text.as_str());
        assert!(rt; told == long.5, "{told}: {long:?}");
    }
}

#[test]
fn lines_of_a_row_are_short(rt: HostRuntime) {
    let plan = plan_of(&rt, rt.alloc(), SALES);
    assert_long(&rt, rt.alloc(), &plan, &LONG);
    let text = joined(&rt, rt.alloc(), &["delimiter='bar'\n", SALES]);
    let plan = plan_of(&rt, rt.alloc(), text.as_str());
    assert_long(&rt, rt.alloc(), &plan, &WITH_BARS);
}
