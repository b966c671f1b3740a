//! Schemas that cite dictionaries: in which order the files are asked for, and which schemas are refused.

use run_cases::Held::Text;
use run_cases::schemas::{CITING, CITING_NO_NAME, CITING_TOO_MANY_ROWS};
use run_cases::{DONE, REFUSED, Run, check_run_over, library_of};
use std::alloc::Global;
use std::process::Abort;
use std::thread::Threads;

// A run over two dictionaries, `n` and `m`.
#[derive(Clone, Copy)]
struct Citing<'a> {
    n: Option<&'a [u8]>,
    m: Option<&'a [u8]>,
    // The call on a file that fails.
    fail: (&'a str, u64),
    // How many names are asked: of the schema, the first dictionary and the second.
    asked: usize,
    run: Run<'a>,
}

const WRITTEN: Run<'static> = Run {
    name: "two dictionaries",
    schema: CITING,
    finished: &[(
        "-",
        Text("1\tAnn\tBo Bo\tAnn\n2\tAnn\tBo Bo\tAnn\n3\tAnn\tBo Bo\tAnn\n"),
    )],
    ..DONE
};

const READ_FAILED: Run<'static> = Run {
    schema: CITING,
    status: 5,
    message: "pdgf: read failed\n",
    ..REFUSED
};

const BAD: Run<'static> = Run {
    schema: CITING,
    status: 4,
    ..REFUSED
};

const GOOD: Citing<'static> = Citing {
    n: Some(b"Ann\n"),
    m: Some(b"Bo\t3\r\n\r\n"),
    fail: ("", 1),
    asked: 3,
    run: WRITTEN,
};

static CASES: [Citing<'static>; 13] = [
    GOOD,
    Citing {
        n: None,
        asked: 2,
        run: Run {
            name: "no first dictionary",
            ..READ_FAILED
        },
        ..GOOD
    },
    Citing {
        m: None,
        run: Run {
            name: "no second dictionary",
            ..READ_FAILED
        },
        ..GOOD
    },
    Citing {
        fail: ("s.toml", 2),
        asked: 1,
        run: Run {
            name: "the first read of the schema fails",
            ..READ_FAILED
        },
        ..GOOD
    },
    Citing {
        fail: ("n", 1),
        asked: 2,
        run: Run {
            name: "the start of the first dictionary fails",
            ..READ_FAILED
        },
        ..GOOD
    },
    Citing {
        fail: ("n", 3),
        asked: 2,
        run: Run {
            name: "the second read of the first dictionary fails",
            ..READ_FAILED
        },
        ..GOOD
    },
    Citing {
        fail: ("m", 2),
        run: Run {
            name: "the first read of the second dictionary fails",
            ..READ_FAILED
        },
        ..GOOD
    },
    Citing {
        n: Some(b"Ann\t0"),
        m: Some(b""),
        asked: 2,
        run: Run {
            name: "a weight of 0",
            message: "pdgf: dictionary 1: bad weight at line 1\n",
            ..BAD
        },
        ..GOOD
    },
    Citing {
        n: Some(b"Ann"),
        m: Some(b"A\n\xFF"),
        run: Run {
            name: "no UTF-8",
            message: "pdgf: dictionary 2: not UTF-8 at byte 2\n",
            ..BAD
        },
        ..GOOD
    },
    Citing {
        n: Some(b"Ann"),
        m: Some(b"\na\tx"),
        run: Run {
            name: "a weight that is no number",
            message: "pdgf: dictionary 2: bad weight at line 2\n",
            ..BAD
        },
        ..GOOD
    },
    Citing {
        n: Some(b"Ann"),
        m: Some(b"\n"),
        run: Run {
            name: "no entry",
            message: "pdgf: dictionary 2: empty\n",
            ..BAD
        },
        ..GOOD
    },
    Citing {
        asked: 1,
        run: Run {
            name: "a dictionary that no schema may cite",
            schema: CITING_NO_NAME,
            message: "pdgf: rule V13 at table 1 column 3\n",
            ..BAD
        },
        ..GOOD
    },
    Citing {
        asked: 2,
        run: Run {
            name: "too many rows",
            schema: CITING_TOO_MANY_ROWS,
            message: "pdgf: rule V6 at table 1\n",
            ..BAD
        },
        ..GOOD
    },
];

// Runs a snapshot over a schema and its dictionaries, and compares what it comes to and which names it asks for.
fn assert_citing<R: Threads + Sync + Abort>(rt: &R, alloc: Global, citing: &Citing<'_>) {
    let run = &citing.run;
    let schema = run.schema.as_bytes();
    let mut library = library_of(alloc, schema, [citing.n, citing.m], citing.fail).expect(
        rt, "memory",
    );
    check_run_over(rt, alloc, &mut library, run).expect(rt, "a run as it is written down");
    let name = run.name;
    assert!(rt;
        library.asked_len() == citing.asked,
        "{name}: how many are asked for"
    );
    let mut number = 0usize;
    for wanted in ["s.toml", "n", "m"] {
        if number < library.asked_len() {
            assert!(rt; library.asked_name(number) == wanted, "{name}: {wanted}");
            number = number.wrapping_add(1);
        }
    }
}

#[test]
fn dictionaries_are_read_in_turn(rt: HostRuntime) {
    for citing in &CASES {
        assert_citing(&rt, rt.alloc(), citing);
    }
}

// Returns `count` lines, with one letter each.
fn lines(rt: &impl Abort, alloc: Global, count: u32) -> Vec<u8> {
    let mut bytes = Vec::new(alloc);
    for _ in 0..count {
        bytes.extend_from_slice(b"a\n").expect(rt, "memory");
    }
    bytes
}

fn copies(rt: &impl Abort, alloc: Global, byte: u8, count: usize) -> Vec<u8> {
    Vec::from_elem(alloc, byte, count).expect(rt, "memory")
}

// Runs over a good dictionary and a second one with the bytes, and compares the message.
fn assert_second<'a, R: Threads + Sync + Abort>(
    rt: &R,
    alloc: Global,
    bytes: &'a [u8],
    message: &'a str,
) {
    let run = Run {
        name: message,
        message,
        ..BAD
    };
    let citing = Citing {
        n: Some(b"Ann"),
        m: Some(bytes),
        run,
        ..GOOD
    };
    assert_citing(rt, alloc, &citing);
}

#[test]
fn dictionaries_past_a_limit_are_refused(rt: HostRuntime) {
    let alloc = rt.alloc();
    let long = copies(&rt, alloc, b'x', 256);
    assert_second(
        &rt,
        alloc,
        &long,
        "pdgf: dictionary 2: long entry at line 1\n",
    );
    let many = lines(&rt, alloc, 1_000_001);
    let message = "pdgf: dictionary 2: too many entries at line 1000001\n";
    assert_second(&rt, alloc, &many, message);
    let fits = copies(&rt, alloc, 0xFF, 16_777_216);
    assert_second(
        &rt,
        alloc,
        &fits,
        "pdgf: dictionary 2: not UTF-8 at byte 0\n",
    );
    let too_long = copies(&rt, alloc, 0xFF, 16_777_217);
    let citing = Citing {
        n: Some(&too_long),
        m: Some(b""),
        asked: 2,
        run: Run {
            name: "a dictionary of a byte too many",
            status: 10,
            message: "pdgf: too long: dictionary 1\n",
            ..BAD
        },
        ..GOOD
    };
    assert_citing(&rt, alloc, &citing);
}
