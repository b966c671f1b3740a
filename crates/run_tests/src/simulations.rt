//! Texts that an independent program in Python wrote, stepping from unit to unit (docs/SECOND_PROGRAM.md). Each text is known by
//! its checksum.

use run_cases::Held::{Sum, Text};
use run_cases::schemas::{FIVE, LIVING, THOUSAND};
use run_cases::{DONE, Run, check_runs};

// What the table holds at each unit, and then what each unit deletes, updates and inserts.
static ONE_TABLE: [Run<'static>; 13] = [
    Run {
        name: "snapshot 0 of one table",
        schema: LIVING,
        words: "pdgf snapshot s.toml --unit 0",
        finished: &[("-", Sum(7_576_709_940_865_645_735))],
        ..DONE
    },
    Run {
        name: "snapshot 1 of one table",
        schema: LIVING,
        words: "pdgf snapshot s.toml --unit 1",
        finished: &[("-", Sum(16_042_029_209_962_655_758))],
        ..DONE
    },
    Run {
        name: "snapshot 2 of one table",
        schema: LIVING,
        words: "pdgf snapshot s.toml --unit 2",
        finished: &[("-", Sum(7_401_556_042_912_636_731))],
        ..DONE
    },
    Run {
        name: "snapshot 3 of one table",
        schema: LIVING,
        words: "pdgf snapshot s.toml --unit 3",
        finished: &[("-", Sum(14_387_791_184_590_950_304))],
        ..DONE
    },
    Run {
        name: "snapshot 4 of one table",
        schema: LIVING,
        words: "pdgf snapshot s.toml --unit 4",
        finished: &[("-", Sum(4_037_875_638_905_791_990))],
        ..DONE
    },
    Run {
        name: "snapshot 5 of one table",
        schema: LIVING,
        words: "pdgf snapshot s.toml --unit 5",
        finished: &[("-", Sum(10_652_435_079_214_470_033))],
        ..DONE
    },
    Run {
        name: "snapshot 6 of one table, by words in another order",
        schema: LIVING,
        words: "pdgf --unit=6 snapshot s.toml",
        finished: &[("-", Sum(2_396_203_592_591_509_865))],
        ..DONE
    },
    Run {
        name: "unit 1 of one table",
        schema: LIVING,
        words: "pdgf unit s.toml --unit 1",
        finished: &[("-", Sum(16_943_409_771_641_953_267))],
        ..DONE
    },
    Run {
        name: "unit 2 of one table",
        schema: LIVING,
        words: "pdgf unit s.toml --unit 2",
        finished: &[("-", Sum(6_968_347_583_893_396_098))],
        ..DONE
    },
    Run {
        name: "unit 3 of one table",
        schema: LIVING,
        words: "pdgf unit s.toml --unit 3",
        finished: &[("-", Sum(12_264_011_208_301_715_426))],
        ..DONE
    },
    Run {
        name: "unit 4 of one table",
        schema: LIVING,
        words: "pdgf unit s.toml --unit 4",
        finished: &[("-", Sum(5_280_892_396_722_901_007))],
        ..DONE
    },
    Run {
        name: "unit 5 of one table",
        schema: LIVING,
        words: "pdgf unit s.toml --unit 5",
        finished: &[("-", Sum(17_548_975_866_997_169_516))],
        ..DONE
    },
    Run {
        name: "unit 6 of one table",
        schema: LIVING,
        words: "pdgf unit s.toml --unit 6",
        finished: &[("-", Sum(10_625_683_309_418_174_204))],
        ..DONE
    },
];

// What five tables hold at each unit, and what units delete, update and insert in them, one after the other.
static FIVE_TABLES: [Run<'static>; 11] = [
    Run {
        name: "snapshot 0 of five tables",
        schema: FIVE,
        words: "pdgf snapshot s.toml --unit 0",
        finished: &[("-", Sum(5_931_312_155_241_627_626))],
        ..DONE
    },
    Run {
        name: "snapshot 1 of five tables",
        schema: FIVE,
        words: "pdgf snapshot s.toml --unit 1",
        finished: &[("-", Sum(1_899_732_708_098_795_348))],
        ..DONE
    },
    Run {
        name: "snapshot 2 of five tables",
        schema: FIVE,
        words: "pdgf snapshot s.toml --unit 2",
        finished: &[("-", Sum(16_924_203_404_327_597_879))],
        ..DONE
    },
    Run {
        name: "snapshot 3 of five tables",
        schema: FIVE,
        words: "pdgf snapshot s.toml --unit 3",
        finished: &[("-", Sum(10_522_005_735_433_884_974))],
        ..DONE
    },
    Run {
        name: "snapshot 4 of five tables",
        schema: FIVE,
        words: "pdgf snapshot s.toml --unit 4",
        finished: &[("-", Sum(14_005_412_522_544_792_305))],
        ..DONE
    },
    Run {
        name: "snapshot 5 of five tables",
        schema: FIVE,
        words: "pdgf snapshot s.toml --unit 5",
        finished: &[("-", Sum(6_667_308_038_851_395_604))],
        ..DONE
    },
    Run {
        name: "unit 1 of five tables",
        schema: FIVE,
        words: "pdgf unit s.toml --unit 1",
        finished: &[("-", Sum(3_872_165_141_443_083_255))],
        ..DONE
    },
    Run {
        name: "unit 2 of five tables",
        schema: FIVE,
        words: "pdgf unit s.toml --unit 2",
        finished: &[("-", Sum(1_260_399_511_238_514_839))],
        ..DONE
    },
    Run {
        name: "unit 3 of five tables",
        schema: FIVE,
        words: "pdgf unit s.toml --unit 3",
        finished: &[("-", Sum(11_614_375_202_900_331_708))],
        ..DONE
    },
    Run {
        name: "unit 4 of five tables",
        schema: FIVE,
        words: "pdgf unit s.toml --unit 4",
        finished: &[("-", Sum(10_982_361_475_692_699_949))],
        ..DONE
    },
    Run {
        name: "unit 5 of five tables",
        schema: FIVE,
        words: "pdgf unit s.toml --unit 5",
        finished: &[("-", Sum(3_532_539_744_551_231_127))],
        ..DONE
    },
];

#[test]
fn tables_are_those_of_a_simulation(rt: HostRuntime) {
    check_runs(&rt, rt.alloc(), &ONE_TABLE).expect(&rt, "runs as they are written down");
    check_runs(&rt, rt.alloc(), &FIVE_TABLES).expect(&rt, "runs as they are written down");
}

static SCRAMBLED: [Run<'static>; 1] = [Run {
    name: "a thousand scrambled keys",
    schema: THOUSAND,
    words: "pdgf snapshot s.toml --unit 5 --out d",
    finished: &[
        ("d/s.tbl", Text("1\n")),
        ("d/t.tbl", Sum(4_378_325_466_889_961_595)),
    ],
    ..DONE
}];

#[test]
fn scrambled_keys_are_as_worked_out(rt: HostRuntime) {
    check_runs(&rt, rt.alloc(), &SCRAMBLED).expect(&rt, "runs as they are written down");
}
