//! Samples: their summaries, and the text of their schema, which is read as the schema that they are made by. The lines of the
//! sample of size 1 follow by hand. Lives of 2 to 11 units are equally frequent in each cohort. Each customer has three orders of
//! its own unit, and each order two lines. The sums, and the summary of size 200, come from a second program.

use pd_outside::ShelfFail;
use pdgf_run::sample_schema;
use run_cases::Held::Text;
use run_cases::{DONE, REFUSED, Run, STOPPED, check_runs};
use sample_tables::sample_plan;
use schema_read::read_schema;

/// The schema's text of size 1.
const ONE: &str = r#"seed = 1
units = 4

[[table]]
name = "customer"
rows = 100
insert = 10
life = [2, 11]
update = 1
[[table.column]]
name = "id"
kind = "key"
base = 1000000000
scramble = true
[[table.column]]
name = "name"
kind = "chars"
alphabet = "abcdefgh"
lo = 8
hi = 8
[[table.column]]
name = "score"
kind = "int"
lo = 100
hi = 999
changes = true

[[table]]
name = "orders"
rows = 300
insert = 30
[[table.column]]
name = "id"
kind = "key"
base = 1000000000
scramble = true
[[table.column]]
name = "customer"
kind = "ref"
table = "customer"
window = 0
[[table.column]]
name = "placed"
kind = "born"

[[table]]
name = "lines"
rows = 600
insert = 60
[[table.column]]
name = "id"
kind = "key"
base = 1000000000
scramble = true
[[table.column]]
name = "order_id"
kind = "ref"
table = "orders"
window = 0
[[table.column]]
name = "due"
kind = "date"
lo = "2024-01-01"
hi = "2024-12-31"
"#;

#[test]
fn the_text_is_as_written(rt: HostRuntime) {
    let text = sample_schema(rt.alloc(), 1).expect(&rt, "memory");
    assert!(&rt; text.as_slice() == ONE.as_bytes());
}

#[test]
fn the_text_is_read_as_the_schema(rt: HostRuntime) {
    for size in [1u64, 7, 1000] {
        assert!(&rt; 1 <= size && size <= 1000);
        let text = sample_schema(rt.alloc(), size).expect(&rt, "memory");
        let plan = sample_plan(rt.alloc(), size).expect(&rt, "memory");
        let Ok(schema) = read_schema(rt.alloc(), &text) else {
            panic!(&rt; "size {size}");
        };
        assert!(&rt; schema == *plan.schema(), "size {size}");
    }
}

const SIZE_1: &str = "customer\t100\t2400\t33\t396\t40\t107\t2568
orders\t300\t7200\t99\t0\t120\t321\t7704
lines\t600\t19800\t198\t0\t240\t642\t21186
sum 1464121
";

const SIZE_200: &str = "customer\t20000\t480000\t6600\t79200\t8000\t21400\t513600
orders\t60000\t1440000\t19800\t0\t24000\t64200\t1540800
lines\t120000\t3960000\t39600\t0\t48000\t128400\t4237200
sum 297113172
";

static SAMPLES: [Run<'static>; 4] = [
    Run {
        name: "size 1",
        words: "pdgf sample --size 1",
        finished: &[("-", Text(SIZE_1))],
        ..DONE
    },
    Run {
        name: "size 1, in packages of seven lines",
        words: "pdgf sample --size 1 --workers 3 --package 7",
        finished: &[("-", Text(SIZE_1))],
        ..DONE
    },
    Run {
        name: "packages that the pages don't take",
        words: "pdgf sample --size 1 --workers 64 --package 1000000",
        status: 8,
        message: "pdgf: out of range: --package\n",
        ..REFUSED
    },
    Run {
        name: "no summary is written",
        words: "pdgf sample --size 1",
        fail: ShelfFail::Write(1),
        begun: Some("-"),
        ..STOPPED
    },
];

#[test]
fn samples_are_summed_up(rt: HostRuntime) {
    check_runs(&rt, rt.alloc(), &SAMPLES).expect(&rt, "runs as they are written down");
}

static WORKERS: [Run<'static>; 2] = [
    Run {
        name: "size 200, by one worker",
        words: "pdgf sample --size 200 --workers 1",
        finished: &[("-", Text(SIZE_200))],
        ..DONE
    },
    Run {
        name: "size 200, by four workers",
        words: "pdgf sample --size 200 --workers 4",
        finished: &[("-", Text(SIZE_200))],
        ..DONE
    },
];

#[test]
fn all_numbers_of_workers_give_one_summary(rt: HostRuntime) {
    check_runs(&rt, rt.alloc(), &WORKERS).expect(&rt, "runs as they are written down");
}
