//! Words, schemas and requests that are refused, and in which order.

use run_cases::Held::Text;
use run_cases::schemas::{
    MORTAL, MOST_ROWS, NO_PARENT, ONE, SALES, SHOWING, SHOWING_AND_TOO_MANY_ROWS, TOO_MANY_ROWS,
    TOO_MANY_ROWS_TO_UNIT_1, WINDOW_TOO_LONG,
};
use run_cases::{DONE, ONE_AT_2, REFUSED, Run, TWO, check_run_over, check_runs, library_of};
use std::alloc::Global;
use std::process::Abort;

static WORDS: [Run<'static>; 15] = [
    Run {
        name: "no word",
        words: "",
        status: 2,
        message: "pdgf: usage: bad words\n",
        ..REFUSED
    },
    Run {
        name: "no mode",
        words: "pdgf",
        status: 2,
        message: "pdgf: usage: bad words\n",
        ..REFUSED
    },
    Run {
        name: "an option with no value",
        words: "pdgf snapshot s.toml --unit",
        status: 2,
        message: "pdgf: usage: bad words\n",
        ..REFUSED
    },
    Run {
        name: "a schema that begins with a hyphen",
        words: "pdgf snapshot - --unit 2",
        status: 2,
        message: "pdgf: usage: bad words\n",
        ..REFUSED
    },
    Run {
        name: "a mode that is none",
        words: "pdgf make s.toml",
        status: 2,
        message: "pdgf: usage: unknown mode\n",
        ..REFUSED
    },
    Run {
        name: "a unit for a check",
        words: "pdgf check s.toml --unit 1",
        status: 2,
        message: "pdgf: usage: unwanted --unit\n",
        ..REFUSED
    },
    Run {
        name: "no schema",
        words: "pdgf snapshot --unit 1",
        status: 2,
        message: "pdgf: usage: missing SCHEMA\n",
        ..REFUSED
    },
    Run {
        name: "no unit",
        words: "pdgf snapshot s.toml",
        status: 2,
        message: "pdgf: usage: missing --unit\n",
        ..REFUSED
    },
    Run {
        name: "a unit with a sign",
        words: "pdgf snapshot s.toml --unit +2",
        status: 2,
        message: "pdgf: usage: bad number for --unit\n",
        ..REFUSED
    },
    Run {
        name: "a unit past 64 bits",
        words: "pdgf snapshot s.toml --unit 18446744073709551616",
        status: 2,
        message: "pdgf: usage: bad number for --unit\n",
        ..REFUSED
    },
    Run {
        name: "an empty folder",
        words: "pdgf snapshot s.toml --unit 2 --out ",
        status: 2,
        message: "pdgf: usage: empty directory for --out\n",
        ..REFUSED
    },
    Run {
        name: "a schema that isn't there",
        words: "pdgf snapshot two.toml --unit 2",
        status: 5,
        message: "pdgf: read failed\n",
        ..REFUSED
    },
    Run {
        name: "a unit past the last",
        words: "pdgf snapshot s.toml --unit 3",
        status: 8,
        message: "pdgf: out of range: --unit\n",
        ..REFUSED
    },
    Run {
        name: "a unit past the last, and no such table",
        words: "pdgf snapshot s.toml --table u --unit 3",
        status: 8,
        message: "pdgf: out of range: --unit\n",
        ..REFUSED
    },
    Run {
        name: "no such table",
        words: "pdgf snapshot s.toml --unit 2 --table u",
        status: 8,
        message: "pdgf: out of range: --table\n",
        ..REFUSED
    },
];

static SCHEMAS: [Run<'static>; 8] = [
    Run {
        name: "no TOML",
        schema: "seed = \"ab",
        status: 3,
        message: "pdgf: schema: not TOML\n",
        ..REFUSED
    },
    Run {
        name: "no table",
        schema: "seed = 1\nunits = 2\n",
        status: 3,
        message: "pdgf: schema: top key table: expected list of tables\n",
        ..REFUSED
    },
    Run {
        name: "too many rows",
        schema: TOO_MANY_ROWS,
        status: 4,
        message: "pdgf: rule V6 at table 1\n",
        ..REFUSED
    },
    Run {
        name: "a window past the sure life",
        schema: WINDOW_TOO_LONG,
        status: 4,
        message: "pdgf: rule V19 at table 2 column 2\n",
        ..REFUSED
    },
    Run {
        name: "no parent at unit 0",
        schema: NO_PARENT,
        status: 4,
        message: "pdgf: rule V20 at table 2 column 2\n",
        ..REFUSED
    },
    Run {
        name: "a lookup by a key",
        schema: SHOWING,
        status: 4,
        message: "pdgf: rule V22 at table 1 column 2\n",
        ..REFUSED
    },
    Run {
        name: "two broken rules",
        schema: SHOWING_AND_TOO_MANY_ROWS,
        status: 4,
        message: "pdgf: rule V6 at table 1\n",
        ..REFUSED
    },
    Run {
        name: "a broken rule, and a unit past the last",
        schema: TOO_MANY_ROWS_TO_UNIT_1,
        status: 4,
        message: "pdgf: rule V6 at table 1\n",
        ..REFUSED
    },
];

// Rows, and keys that other modes don't take.
static KEYS: [Run<'static>; 20] = [
    Run {
        name: "no schema before a bad unit",
        schema: SALES,
        words: "pdgf row --unit x",
        status: 2,
        message: "pdgf: usage: missing SCHEMA\n",
        ..REFUSED
    },
    Run {
        name: "no unit before a bad key",
        schema: SALES,
        words: "pdgf row s.toml --key x",
        status: 2,
        message: "pdgf: usage: missing --unit\n",
        ..REFUSED
    },
    Run {
        name: "a bad unit before no table",
        schema: SALES,
        words: "pdgf row s.toml --unit x",
        status: 2,
        message: "pdgf: usage: bad number for --unit\n",
        ..REFUSED
    },
    Run {
        name: "no table before a bad key",
        schema: SALES,
        words: "pdgf row s.toml --unit 2 --key x",
        status: 2,
        message: "pdgf: usage: missing --table\n",
        ..REFUSED
    },
    Run {
        name: "no key before a folder",
        schema: SALES,
        words: "pdgf row s.toml --unit 2 --table customer --out d",
        status: 2,
        message: "pdgf: usage: missing --key\n",
        ..REFUSED
    },
    Run {
        name: "a bad key before a folder",
        schema: SALES,
        words: "pdgf row s.toml --unit 2 --table customer --key x --out d",
        status: 2,
        message: "pdgf: usage: bad number for --key\n",
        ..REFUSED
    },
    Run {
        name: "a key past 64 bits",
        schema: SALES,
        words: "pdgf row s.toml --unit 2 --table customer --key 18446744073709551616",
        status: 2,
        message: "pdgf: usage: bad number for --key\n",
        ..REFUSED
    },
    Run {
        name: "a folder for a row",
        schema: SALES,
        words: "pdgf row s.toml --unit 2 --table customer --key 1 --out d",
        status: 2,
        message: "pdgf: usage: unwanted --out\n",
        ..REFUSED
    },
    Run {
        name: "an empty folder for a row",
        schema: SALES,
        words: "pdgf row s.toml --unit 2 --table customer --key 1 --out ",
        status: 2,
        message: "pdgf: usage: unwanted --out\n",
        ..REFUSED
    },
    Run {
        name: "two keys",
        schema: SALES,
        words: "pdgf row s.toml --unit 2 --table customer --key 1 --key 1",
        status: 2,
        message: "pdgf: usage: bad words\n",
        ..REFUSED
    },
    Run {
        name: "a key for a check before a folder",
        schema: SALES,
        words: "pdgf check s.toml --key 1 --out d",
        status: 2,
        message: "pdgf: usage: unwanted --key\n",
        ..REFUSED
    },
    Run {
        name: "a table for a check before a key",
        schema: SALES,
        words: "pdgf check s.toml --key 1 --table customer",
        status: 2,
        message: "pdgf: usage: unwanted --table\n",
        ..REFUSED
    },
    Run {
        name: "a key for a snapshot",
        schema: SALES,
        words: "pdgf snapshot s.toml --unit 2 --key 1",
        status: 2,
        message: "pdgf: usage: unwanted --key\n",
        ..REFUSED
    },
    Run {
        name: "a bad unit before a key for a snapshot",
        schema: SALES,
        words: "pdgf snapshot s.toml --unit x --key 1",
        status: 2,
        message: "pdgf: usage: bad number for --unit\n",
        ..REFUSED
    },
    Run {
        name: "a key for a unit before an empty folder",
        schema: SALES,
        words: "pdgf unit s.toml --unit 2 --key x --out ",
        status: 2,
        message: "pdgf: usage: unwanted --key\n",
        ..REFUSED
    },
    Run {
        name: "a row at a unit past the last",
        schema: SALES,
        words: "pdgf row s.toml --unit 6 --table product --key 7",
        status: 8,
        message: "pdgf: out of range: --unit\n",
        ..REFUSED
    },
    Run {
        name: "a row of no such table",
        schema: SALES,
        words: "pdgf row s.toml --unit 5 --table product --key 7",
        status: 8,
        message: "pdgf: out of range: --table\n",
        ..REFUSED
    },
    Run {
        name: "a key past the last",
        schema: SALES,
        words: "pdgf row s.toml --unit 5 --table customer --key 7",
        status: 8,
        message: "pdgf: out of range: --key\n",
        ..REFUSED
    },
    Run {
        name: "a key before the first",
        schema: SALES,
        words: "pdgf row s.toml --unit 5 --table customer --key 0",
        status: 8,
        message: "pdgf: out of range: --key\n",
        ..REFUSED
    },
    Run {
        name: "the greatest key",
        schema: SALES,
        words: "pdgf row s.toml --unit 0 --table lines --key 18446744073709551615",
        status: 8,
        message: "pdgf: out of range: --key\n",
        ..REFUSED
    },
];

// Workers, packages and nodes, and modes that don't take them.
static SHARES: [Run<'static>; 23] = [
    Run {
        name: "no workers",
        words: "pdgf snapshot s.toml --unit 2 --workers 0",
        status: 2,
        message: "pdgf: usage: bad number for --workers\n",
        ..REFUSED
    },
    Run {
        name: "a worker too many",
        words: "pdgf snapshot s.toml --unit 2 --workers 65",
        status: 2,
        message: "pdgf: usage: bad number for --workers\n",
        ..REFUSED
    },
    Run {
        name: "workers that are no number",
        words: "pdgf unit s.toml --unit 2 --workers x",
        status: 2,
        message: "pdgf: usage: bad number for --workers\n",
        ..REFUSED
    },
    Run {
        name: "a package of no rows",
        words: "pdgf snapshot s.toml --unit 2 --package 0",
        status: 2,
        message: "pdgf: usage: bad number for --package\n",
        ..REFUSED
    },
    Run {
        name: "a package of a row too many",
        words: "pdgf unit s.toml --unit 2 --package 1000001",
        status: 2,
        message: "pdgf: usage: bad number for --package\n",
        ..REFUSED
    },
    Run {
        name: "a node that is no number",
        words: "pdgf snapshot s.toml --unit 2 --node x",
        status: 2,
        message: "pdgf: usage: bad number for --node\n",
        ..REFUSED
    },
    Run {
        name: "a node past 64 bits",
        words: "pdgf snapshot s.toml --unit 2 --node 18446744073709551616",
        status: 2,
        message: "pdgf: usage: bad number for --node\n",
        ..REFUSED
    },
    Run {
        name: "a node with a hyphen",
        words: "pdgf snapshot s.toml --unit 2 --node -1",
        status: 2,
        message: "pdgf: usage: bad words\n",
        ..REFUSED
    },
    Run {
        name: "no nodes",
        words: "pdgf unit s.toml --unit 2 --nodes=0",
        status: 2,
        message: "pdgf: usage: bad number for --nodes\n",
        ..REFUSED
    },
    Run {
        name: "nodes past the most",
        words: "pdgf snapshot s.toml --unit 2 --nodes 1025",
        status: 2,
        message: "pdgf: usage: bad number for --nodes\n",
        ..REFUSED
    },
    Run {
        name: "workers twice",
        words: "pdgf snapshot s.toml --unit 2 --workers 4 --workers=4",
        status: 2,
        message: "pdgf: usage: bad words\n",
        ..REFUSED
    },
    Run {
        name: "workers for a check",
        words: "pdgf check s.toml --workers 4",
        status: 2,
        message: "pdgf: usage: unwanted --workers\n",
        ..REFUSED
    },
    Run {
        name: "a package for a check before a node",
        words: "pdgf check s.toml --node 0 --package 1",
        status: 2,
        message: "pdgf: usage: unwanted --package\n",
        ..REFUSED
    },
    Run {
        name: "a node for a check before bad nodes",
        words: "pdgf check s.toml --nodes 0 --node 0",
        status: 2,
        message: "pdgf: usage: unwanted --node\n",
        ..REFUSED
    },
    Run {
        name: "nodes for a check",
        words: "pdgf check s.toml --nodes 1",
        status: 2,
        message: "pdgf: usage: unwanted --nodes\n",
        ..REFUSED
    },
    Run {
        name: "workers for a row",
        words: "pdgf row s.toml --unit 2 --table t --key 1 --workers 4",
        status: 2,
        message: "pdgf: usage: unwanted --workers\n",
        ..REFUSED
    },
    Run {
        name: "nodes for a row",
        words: "pdgf row s.toml --unit 2 --table t --key 1 --nodes 1",
        status: 2,
        message: "pdgf: usage: unwanted --nodes\n",
        ..REFUSED
    },
    Run {
        name: "an empty folder before no workers",
        words: "pdgf snapshot s.toml --workers 0 --unit 2 --out ",
        status: 2,
        message: "pdgf: usage: empty directory for --out\n",
        ..REFUSED
    },
    Run {
        name: "no workers before a package of no rows",
        words: "pdgf snapshot s.toml --package 0 --unit 2 --workers 0",
        status: 2,
        message: "pdgf: usage: bad number for --workers\n",
        ..REFUSED
    },
    Run {
        name: "a package of no rows before a bad node",
        words: "pdgf unit s.toml --node x --package 0 --unit 2",
        status: 2,
        message: "pdgf: usage: bad number for --package\n",
        ..REFUSED
    },
    Run {
        name: "a bad node before no nodes",
        words: "pdgf snapshot s.toml --nodes 0 --node x --unit 2",
        status: 2,
        message: "pdgf: usage: bad number for --node\n",
        ..REFUSED
    },
    Run {
        name: "a unit past the last, and the most of each",
        words: "pdgf snapshot s.toml --workers 64 --package 1000000 --node 18446744073709551615 --nodes 1024 --unit 3",
        status: 8,
        message: "pdgf: out of range: --unit\n",
        ..REFUSED
    },
    Run {
        name: "the least of each",
        words: "pdgf snapshot s.toml --unit 2 --workers 1 --package 1 --node 0 --nodes 1",
        finished: &[("-", Text(ONE_AT_2))],
        ..DONE
    },
];

// Units and keys out of the range of other schemas.
static RANGES: [Run<'static>; 4] = [
    Run {
        name: "a unit past the last of the sales",
        schema: SALES,
        words: "pdgf snapshot s.toml --unit 6",
        status: 8,
        message: "pdgf: out of range: --unit\n",
        ..REFUSED
    },
    Run {
        name: "no unit 0 of the mortal",
        schema: MORTAL,
        words: "pdgf unit s.toml --unit 0",
        status: 8,
        message: "pdgf: out of range: --unit\n",
        ..REFUSED
    },
    Run {
        name: "no unit 3 of the mortal",
        schema: MORTAL,
        words: "pdgf unit s.toml --unit 3",
        status: 8,
        message: "pdgf: out of range: --unit\n",
        ..REFUSED
    },
    Run {
        name: "a key past the last of most rows",
        schema: MOST_ROWS,
        words: "pdgf row s.toml --table t --key 1099511627777 --unit 0",
        status: 8,
        message: "pdgf: out of range: --key\n",
        ..REFUSED
    },
];

#[test]
fn other_words_are_refused(rt: HostRuntime) {
    check_runs(&rt, rt.alloc(), &WORDS).expect(&rt, "runs as they are written down");
}

#[test]
fn workers_packages_and_nodes_are_within_their_ranges(rt: HostRuntime) {
    check_runs(&rt, rt.alloc(), &SHARES).expect(&rt, "runs as they are written down");
}

#[test]
fn other_schemas_are_refused(rt: HostRuntime) {
    check_runs(&rt, rt.alloc(), &SCHEMAS).expect(&rt, "runs as they are written down");
}

#[test]
fn requests_are_refused_in_order(rt: HostRuntime) {
    check_runs(&rt, rt.alloc(), &KEYS).expect(&rt, "runs as they are written down");
    check_runs(&rt, rt.alloc(), &RANGES).expect(&rt, "runs as they are written down");
}

// Returns a schema's text after line feeds, `size` bytes in all. It is a function of its own so that no proof unfolds its bytes.
fn padded(rt: &impl Abort, alloc: Global, schema: &str, size: usize) -> Vec<u8> {
    let more = size.wrapping_sub(schema.len());
    let mut bytes = Vec::from_elem(alloc, b'\n', more).expect(rt, "memory");
    bytes
        .extend_from_slice(schema.as_bytes())
        .expect(rt, "memory");
    bytes
}

#[test]
fn a_schema_of_a_byte_too_many_is_refused(rt: HostRuntime) {
    let fits = Run {
        name: "a schema that fits",
        finished: &[("-", Text(ONE_AT_2))],
        ..DONE
    };
    let too_long = Run {
        name: "a schema of a byte too many",
        status: 10,
        message: "pdgf: too long: schema\n",
        ..REFUSED
    };
    for (size, run) in [(1_048_576, fits), (1_048_577, too_long)] {
        let schema = padded(&rt, rt.alloc(), ONE, size);
        let mut library = library_of(rt.alloc(), &schema, [None, None], ("", 1)).expect(
            &rt, "memory",
        );
        check_run_over(&rt, rt.alloc(), &mut library, &run).expect(
            &rt,
            "a run as it is written down",
        );
    }
}
