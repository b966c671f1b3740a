//! Detail tables with columns of all kinds over files in memory: their lines, the word lists that a declaration cites, in which order
//! the files are asked for, and what is refused. The texts were worked out by an independent computation.

use pd_outside::{Files, LibraryFails, MemLibrary};
use run_cases::schemas::{ONE_CITING, TRADE};
use run_cases::{DONE, Held, REFUSED, Run, check_run_over};
use std::alloc::Global;
use std::process::Abort;
use std::thread::Threads;

/// Two lines for each row of the parent, and what is told of them.
#[derive(Clone, Copy)]
struct Lines<'a> {
    /// The run over the schema.
    run: Run<'a>,
    /// The seed, as it is written.
    seed: &'a str,
    /// The name of the parent.
    parent: &'a str,
    /// The column of the parent that is shown.
    shown: &'a str,
    /// The name of the word list.
    list: &'a str,
    /// The columns after the others, as they are written.
    last: &'a str,
    /// The word list `one.txt`.
    words: &'a str,
    /// The names that are asked for, in turn.
    asked: &'a [&'a str],
}

const AT_0: &str =
    "1\t1\t2\t2.50\t5.00\t0\tb4d9412f-ef73-41bc-a1e6-cb616a250aee\tAnn\n1\t2\t\\N\t2.50\t\\N\t0\t3374a17a-f662-4f16-97fd-96d2f40196e8\tAnn\n";

const LINES: Lines<'static> = Lines {
    run: Run {
        name: "all kinds of columns",
        schema: TRADE,
        words: "pdgf details s.toml --spec j.toml --unit 0",
        finished: &[("-", Held::Text(AT_0))],
        ..DONE
    },
    seed: "1",
    parent: "customer",
    shown: "born",
    list: "one.txt",
    last: "",
    words: "Ann\n",
    asked: &["s.toml", "j.toml", "one.txt"],
};

const BAD: Run<'static> = Run {
    schema: TRADE,
    words: "pdgf details s.toml --spec j.toml --unit 0",
    status: 4,
    ..REFUSED
};

/// A column that shows a word list of the schema.
const NAMES: &str = r#"[[column]]
name = "w"
kind = "dict"
file = "names.txt"
"#;

const CASES: [Lines<'static>; 6] = [
    LINES,
    Lines {
        run: Run {
            name: "a word list that breaks its grammar",
            message: "pdgf: dictionary 1: bad weight at line 1\n",
            ..BAD
        },
        words: "Ann\t0\n",
        ..LINES
    },
    Lines {
        run: Run {
            name: "a column of the parent that moves",
            message: "pdgf: rule E4\n",
            ..BAD
        },
        shown: "changed",
        ..LINES
    },
    Lines {
        run: Run {
            name: "a word list without a name, before the seed",
            message: "pdgf: rule E6\n",
            ..BAD
        },
        seed: "-1",
        list: "",
        asked: &["s.toml", "j.toml"],
        ..LINES
    },
    Lines {
        run: Run {
            name: "a second word list, which breaks its grammar",
            schema: ONE_CITING,
            message: "pdgf: dictionary 2: bad weight at line 1\n",
            ..BAD
        },
        parent: "t",
        last: NAMES,
        words: "Ann\t0\n",
        asked: &["s.toml", "names.txt", "j.toml", "one.txt"],
        ..LINES
    },
    Lines {
        run: Run {
            name: "a word list that breaks its grammar, before the inputs",
            words: "pdgf details-apply s.toml --spec j.toml --from 0 --to 1 --in d",
            message: "pdgf: dictionary 1: bad weight at line 1\n",
            ..BAD
        },
        words: "Ann\t0\n",
        ..LINES
    },
];

// Returns the declaration of the lines.
fn declaration(rt: &impl Abort, alloc: Global, lines: &Lines<'_>) -> Vec<u8> {
    let mut bytes = Vec::new(alloc);
    for piece in [
        "seed = ",
        lines.seed,
        "\nname = \"item\"\nparent = \"",
        lines.parent,
        "\"\nlo = 2\nhi = 2\n",
        "[[column]]\nname = \"qty\"\nkind = \"int\"\nlo = 1\nhi = 9\nnull = 500\n",
        "[[column]]\nname = \"price\"\nkind = \"fixed\"\nlo = 250\nhi = 250\ndecimals = 2\n",
        "[[column]]\nname = \"total\"\nkind = \"product\"\nof = [\"qty\", \"price\"]\n",
        "[[column]]\nname = \"born\"\nkind = \"parent\"\ncolumn = \"",
        lines.shown,
        "\"\n[[column]]\nname = \"u\"\nkind = \"uuid\"\n",
        "[[column]]\nname = \"word\"\nkind = \"dict\"\nfile = \"",
        lines.list,
        "\"\n",
        lines.last,
    ] {
        bytes
            .extend_from_slice(piece.as_bytes())
            .expect(rt, "memory");
    }
    bytes
}

// Returns a library of the schema, the declaration and two word lists.
fn library_with(rt: &impl Abort, alloc: Global, lines: &Lines<'_>) -> MemLibrary {
    let declared = declaration(rt, alloc, lines);
    let mut files = Files::new(alloc);
    let schema = lines.run.schema.as_bytes();
    files.push("s.toml", schema).expect(rt, "memory");
    files.push("j.toml", &declared).expect(rt, "memory");
    let words = lines.words.as_bytes();
    files.push("one.txt", words).expect(rt, "memory");
    let names = b"Ann\t3\nBo\nCleo\t2\n";
    files.push("names.txt", names).expect(rt, "memory");
    MemLibrary::new(alloc, files, LibraryFails::new(alloc))
}

// Runs the words over the files, and compares what they come to and which names are asked for.
fn assert_lines<R: Threads + Sync + Abort>(rt: &R, alloc: Global, lines: &Lines<'_>) {
    let mut library = library_with(rt, alloc, lines);
    check_run_over(rt, alloc, &mut library, &lines.run).expect(rt, "a run as it is written down");
    let name = lines.run.name;
    assert!(rt;
        library.asked_len() == lines.asked.len(),
        "{name}: how many are asked for"
    );
    for place in 0..lines.asked.len() {
        if place < library.asked_len() {
            let wanted = lines.asked[place];
            assert!(rt; library.asked_name(place) == wanted, "{name}: {wanted}");
        }
    }
}

#[test]
fn word_lists_are_read_after_the_declaration(rt: HostRuntime) {
    for lines in &CASES {
        assert_lines(&rt, rt.alloc(), lines);
    }
}
