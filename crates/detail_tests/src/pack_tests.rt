//! The lines of detail tables in packages of several sizes. The first case is worked out by hand. The others come from an independent program,
//! written in Python from the rules, with no shared code (docs/SECOND_PROGRAM.md).

ghost use Rattle.std.specs.Prelude.{◌≡◌, ◌<◌, ◌≤◌, ℕ, get_or, length, true};
ghost use Rattle.life_intervals.specs.Generator.{last_unit};
ghost use Rattle.detail_plan.specs.Kept.{KeepsRules};
ghost use Rattle.detail_lines.specs.Rows.{born_by};
ghost use Rattle.detail_rows.specs.Packages.{AreTold};

use crate::fixtures::{BILLS, SALES, plan_of, word_lists};
use detail_plan::{DetailPlan, check_detail, read_detail};
use detail_rows::{DetailPacker, PackedRows, parent_of};
use life_intervals::born;
use line_pages::PageBuf;
use range_workers::Packer;
use schema_plan::Plan;
use std::alloc::Global;
use std::process::Abort;

/// Returns the detail table that a text declares over a plan, with a word list of one entry.
fn declared(rt: &impl Abort, alloc: Global, plan: &Plan, text: &str) -> DetailPlan
    ensures { KeepsRules plan.now result }
{
    let Ok(detail) = read_detail(alloc, text.as_bytes()) else {
        panic!(rt; "nothing declared");
    };
    match check_detail(alloc, plan, detail, word_lists(rt, alloc, &["one.txt"])) {
        Ok(kept) => kept,
        Err(fault) => panic!(rt; "{fault:?}"),
    }
}

/// Whether rows of these ordinals are born in the parent by a unit.
fn are_born(plan: &Plan, detail: &DetailPlan, ordinals: &[u64], unit: u64) -> bool
    requires keeps { KeepsRules plan.now detail.now }
    requires unit { unit ≤ last_unit plan.now }
    ensures { result ≡ true → (i : ℕ) → i < length ordinals.now → get_or ordinals.now i 0 < born_by plan.now detail.now unit }
{
    let many = born(plan, parent_of(plan, detail), unit);
    for ordinal in ordinals {
        if many <= *ordinal {
            return false;
        }
    }
    true
}

/// Whether the rows of a packer are rows of the parent.
fn are_told(plan: &Plan, detail: &DetailPlan, told: &PackedRows<'_>) -> bool
    requires { KeepsRules plan.now detail.now }
    ensures { result ≡ true → AreTold plan.now detail.now told.now }
{
    match told {
        PackedRows::All { unit } | PackedRows::Born { unit } => *unit <= plan.units(),
        PackedRows::Keys { ordinals } => are_born(plan, detail, ordinals, plan.units()),
        PackedRows::Lines { ordinals, unit } => {
            *unit <= plan.units() && are_born(plan, detail, ordinals, *unit)
        }
    }
}

/// Joins all packages of a packer, one after the other. Returns None if memory is wanting.
fn packed(alloc: Global, packer: &DetailPacker<'_>) -> Option<Vec<u8>> {
    let mut text = Vec::new(alloc);
    let Ok(mut page) = PageBuf::with_room(alloc, packer.room()) else {
        return None;
    };
    for n in 0..packer.count() {
        page.clear();
        packer.pack(n, &mut page);
        if text.extend_from_slice(page.text()).is_err() {
            return None;
        }
    }
    Some(text)
}

/// Makes the lines of some rows, in packages of `size` rows. Returns None if memory is wanting or the rows aren't the parent's.
fn text_by(
    alloc: Global,
    plan: &Plan,
    detail: &DetailPlan,
    told: PackedRows<'_>,
    size: u64,
) -> Option<Vec<u8>>
    requires keeps { KeepsRules plan.now detail.now }
    requires some_row { 1 ≤ size }
    requires limit { size ≤ 1000000 }
{
    if !are_told(plan, detail, &told) {
        return None;
    }
    let rows = life_intervals::Rows::of(plan);
    match DetailPacker::new(alloc, rows, detail, told, size) {
        Ok(packer) => packed(alloc, &packer),
        Err(_) => None,
    }
}

/// A detail table of a schema, and the lines of some rows of its parent.
struct Case<'a> {
    schema: &'a str,
    declaration: &'a str,
    texts: &'a [(PackedRows<'a>, &'a [u8])],
}

/// Two lines for each customer, each with the quantity 5.
const ITEMS: &str = r#"
seed = 1
name = "item"
parent = "customer"
lo = 2
hi = 2
column = [{ name = "qty", kind = "int", lo = 5, hi = 5 }]
"#;

/// A column that doesn't change and two that do. The customers 1 to 5 have 3, 0, 2, 1 and 1 lines.
const NOTES: &str = r#"
seed = 19
name = "item"
parent = "customer"
lo = 0
hi = 3
column = [
    { name = "qty", kind = "int", lo = -9, hi = 9 },
    { name = "note", kind = "pick", entries = ["", "a\tb", "x|y"], changes = true },
    { name = "price", kind = "int", lo = 100, hi = 999, changes = true },
]
"#;

/// Customers of whom more are born at later units, and of whom few change.
const CUSTOMERS: &str = r#"
seed = 0
units = 15
[[table]]
name = "customer"
rows = 1
insert = [[1, 5], [4, 6]]
life = [5, 14]
update = 10000
column = [{ name = "id", kind = "key", base = 1 }]
"#;

/// Quantities. Some customers have no line.
const QUANTITIES: &str = r#"
seed = 6401751718962498050
name = "item"
parent = "customer"
lo = 0
hi = 3
column = [{ name = "qty", kind = "int", lo = 100, hi = 1100, changes = true }]
"#;

/// Orders with scrambled keys that live three units, with bars between the fields.
const ORDERS: &str = r#"
seed = 9223372036854775807
units = 15
delimiter = "bar"
[[table]]
name = "orders"
rows = 0
insert = [[1, 0], [4, 3], [7, 6]]
life = [3, 3]
update = 5
column = [{ name = "id", kind = "key", base = 1000, scramble = true }]
"#;

/// Entries that are written with backslashes before some bytes, empty entries, and entries that stand twice.
const MARKS: &str = r#"
seed = 8250867271653808470
name = "item"
parent = "orders"
lo = 1
hi = 4
column = [
    { name = "note", kind = "pick", entries = ["b", "-1comma, quote\"", "\u0001\u007f'", "", ""] },
    { name = "mark", kind = "pick", entries = ["|", "\\\\", "", "", ""], changes = false },
]
"#;

/// Members with a day and a number that is null now and then, and bars between the fields.
const MEMBERS: &str = r#"
seed = 11
units = 6
delimiter = "bar"
[[table]]
name = "member"
rows = 2
insert = 1
life = [2, 4]
update = 2
column = [
    { name = "id", kind = "key", base = 1 },
    { name = "since", kind = "born_date", start = "2023-12-30", step = 31 },
    { name = "share", kind = "fixed", lo = -999, hi = 999, decimals = 2, null = 300 },
    { name = "twice", kind = "sum", of = ["share", "share"] },
]
"#;

/// Dates after the member's day, sums with the member's number, and a date and a product that change.
const VISITS: &str = r#"
seed = 5
name = "visit"
parent = "member"
lo = 0
hi = 2
column = [
    { name = "since", kind = "parent", column = "since", null = 200 },
    { name = "due", kind = "after", of = "since", lo = -3, hi = 60 },
    { name = "paid", kind = "after", of = "due", lo = 1, hi = 400, null = 300 },
    { name = "twice", kind = "parent", column = "twice" },
    { name = "fee", kind = "fixed", lo = 1, hi = 99999, decimals = 3 },
    { name = "all", kind = "sum", of = ["fee", "twice", "fee"] },
    { name = "n", kind = "skew", lo = -2, size = 5, power = 1, changes = true, null = 100 },
    { name = "day", kind = "date", lo = "1999-12-31", hi = "2000-01-01", changes = true },
    { name = "next", kind = "after", of = "day", lo = 0, hi = 9, changes = true },
    { name = "total", kind = "product", of = ["all", "n"], changes = true },
    { name = "note", kind = "chars", alphabet = "|xé", lo = 0, hi = 3, null = 250 },
]
"#;

const CASES: [Case<'static>; 6] = [
    Case {
        schema: SALES,
        declaration: BILLS,
        texts: &[(
            PackedRows::All { unit: 0 },
            b"1\t1\t2\t2.50\t5.00\t0\tb4d9412f-ef73-41bc-a1e6-cb616a250aee\tAnn\n\
            1\t2\t\\N\t2.50\t\\N\t0\t3374a17a-f662-4f16-97fd-96d2f40196e8\tAnn\n",
        )],
    },
    Case {
        schema: SALES,
        declaration: ITEMS,
        texts: &[
            (
                PackedRows::All { unit: 2 },
                b"1\t1\t5\n1\t2\t5\n2\t1\t5\n2\t2\t5\n3\t1\t5\n3\t2\t5\n",
            ),
            (
                PackedRows::All { unit: 3 },
                b"2\t1\t5\n2\t2\t5\n3\t1\t5\n3\t2\t5\n4\t1\t5\n4\t2\t5\n",
            ),
            (PackedRows::Keys { ordinals: &[0] }, b"1\t1\n1\t2\n"),
            (
                PackedRows::Lines {
                    ordinals: &[2],
                    unit: 3,
                },
                b"3\t1\t5\n3\t2\t5\n",
            ),
            (PackedRows::Born { unit: 3 }, b"4\t1\t5\n4\t2\t5\n"),
            (PackedRows::Keys { ordinals: &[] }, b""),
        ],
    },
    Case {
        schema: SALES,
        declaration: NOTES,
        texts: &[
            (
                PackedRows::All { unit: 3 },
                b"3\t1\t0\t\t792\n3\t2\t5\ta\\tb\t110\n4\t1\t-7\tx|y\t947\n",
            ),
            (PackedRows::Keys { ordinals: &[0] }, b"1\t1\n1\t2\n1\t3\n"),
            (
                PackedRows::Lines {
                    ordinals: &[1, 2],
                    unit: 3,
                },
                b"3\t1\t0\t\t792\n3\t2\t5\ta\\tb\t110\n",
            ),
            (PackedRows::Born { unit: 3 }, b"4\t1\t-7\tx|y\t947\n"),
        ],
    },
    Case {
        schema: CUSTOMERS,
        declaration: QUANTITIES,
        texts: &[
            (
                PackedRows::Lines {
                    ordinals: &[2, 7, 11],
                    unit: 4,
                },
                b"3\t1\t1074\n12\t1\t652\n",
            ),
            (
                PackedRows::Lines {
                    ordinals: &[1, 2, 3, 4, 5],
                    unit: 4,
                },
                b"2\t1\t1071\n2\t2\t793\n2\t3\t553\n3\t1\t1074\n5\t1\t432\n6\t1\t422\n",
            ),
            (
                PackedRows::Born { unit: 4 },
                b"17\t1\t726\n18\t1\t129\n18\t2\t303\n20\t1\t891\n21\t1\t406\n21\t2\t213\n22\t1\t199\n22\t2\t179\n",
            ),
        ],
    },
    Case {
        schema: ORDERS,
        declaration: MARKS,
        texts: &[
            (
                PackedRows::All { unit: 7 },
                b"1003|1||\\\\\\\\\n1003|2|-1comma, quote\"|\n1004|1||\n1004|2||\\\\\\\\\n1004|3|\x01\x7f'|\n\
                1005|1|-1comma, quote\"|\n1005|2||\\|\n1005|3||\n1007|1||\n1007|2||\n1007|3|\x01\x7f'|\n1008|1|\x01\x7f'|\n\
                1006|1||\\\\\\\\\n1006|2||\n1014|1|-1comma, quote\"|\\\\\\\\\n1012|1|b|\n1009|1|-1comma, quote\"|\n1009|2||\n\
                1009|3||\n1009|4|b|\n1013|1|b|\n1011|1|-1comma, quote\"|\n1010|1|\x01\x7f'|\n",
            ),
            (
                PackedRows::Keys {
                    ordinals: &[0, 1, 2],
                },
                b"1001|1\n1001|2\n1001|3\n1001|4\n1000|1\n1000|2\n1000|3\n1002|1\n1002|2\n1002|3\n",
            ),
        ],
    },
    Case {
        schema: MEMBERS,
        declaration: VISITS,
        texts: &[
            (
                PackedRows::All { unit: 2 },
                b"1|1|\\N|\\N|\\N|-16.50|72.802|129.104|0|2000-01-01|2000-01-08|0.000|\xc3\xa9\\|\xc3\xa9\n\
                3|1|2024-01-30|2024-03-18|2024-09-03|-3.28|83.518|163.756|0|2000-01-01|2000-01-04|0.000|\\N\n\
                3|2|\\N|\\N|\\N|-3.28|89.440|175.600|-2|2000-01-01|2000-01-09|-351.200|\xc3\xa9x\xc3\xa9\n",
            ),
            (
                PackedRows::Lines {
                    ordinals: &[5],
                    unit: 5,
                },
                b"6|1|2024-05-02|2024-06-09|\\N|\\N|21.893|\\N|-2|2000-01-01|2000-01-02|\\N|\\|\xc3\xa9\xc3\xa9\n\
                6|2|2024-05-02|2024-06-30|2025-07-25|\\N|5.792|\\N|-1|1999-12-31|2000-01-08|\\N|\\N\n",
            ),
            (PackedRows::Keys { ordinals: &[5] }, b"6|1\n6|2\n"),
            (
                PackedRows::Born { unit: 5 },
                b"7|1|2024-06-02|2024-07-29|2025-01-08|14.60|99.107|212.814|-2|1999-12-31|1999-12-31|-425.628|\\N\n\
                7|2|2024-06-02|2024-07-19|2025-05-30|14.60|77.546|169.692|-1|2000-01-01|2000-01-02|-169.692|\n",
            ),
        ],
    },
];

fn assert_texts(rt: &impl Abort, alloc: Global, case: &Case<'_>) {
    let plan = plan_of(rt, alloc, case.schema);
    let detail = declared(rt, alloc, &plan, case.declaration);
    for (told, text) in case.texts {
        for size in [1, 2, 1000] {
            let made = text_by(alloc, &plan, &detail, *told, size).expect(rt, "no text");
            assert!(rt; made.as_slice() == *text, "{told:?} by {size}");
        }
    }
}

#[test]
fn lines_are_told_in_packages_of_any_size(rt: HostRuntime) {
    for case in &CASES {
        assert_texts(&rt, rt.alloc(), case);
    }
}
