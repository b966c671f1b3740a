//! Runs that ended, and the hints that they get.

use hints::{Ended, tell_hints};
use pd_outside::{Files, LibraryFails, MemLibrary};
use std::alloc::{AllocError, Global};
use std::test::Fail;

/// A run that ended, and the hints that it must get.
#[derive(Clone, Copy)]
struct Run {
    /// The words, with a space between two.
    words: &'static str,
    /// The text of the schema `s.toml`.
    schema: &'static str,
    /// The exit status.
    status: u8,
    /// The message.
    message: &'static str,
    /// The hints.
    hints: &'static str,
}

/// Customers live at least three units, and orders refer to them over a window of three.
const SCHEMA: &str = r#"seed = 7
units = 5
[[table]]
name = "customer"
rows = 1
insert = 1
life = [3, 5]
[[table.column]]
name = "id"
kind = "key"
base = 1
[[table]]
name = "orders"
rows = 1
insert = 1
[[table.column]]
name = "id"
kind = "key"
base = 1
[[table.column]]
name = "customer"
kind = "ref"
table = "customer"
window = 3
"#;

/// A table of two rows.
const SOUND: &str = r#"seed = 7
units = 5
[[table]]
name = "t"
rows = 2
[[table.column]]
name = "id"
kind = "key"
base = 1
"#;

/// A date without quotes.
const DATED: &str = r#"seed = 7
units = 5
[[table]]
name = "t"
rows = 2
[[table.column]]
name = "id"
kind = "key"
base = 1
[[table.column]]
name = "born"
kind = "date"
lo = 1940-01-01
hi = "1999-12-31"
"#;

/// A table with the key `row` beside `rows`.
const MISSPELLED: &str = r#"seed = 7
units = 5
[[table]]
name = "t"
row = 2
rows = 2
[[table.column]]
name = "id"
kind = "key"
base = 1
"#;

/// Lines of the table of two rows, with a word list that the schema doesn't have.
const DETAILS: &str = r#"seed = 1
name = "item"
parent = "t"
lo = 1
hi = 2
[[column]]
name = "word"
kind = "dict"
file = "own.txt"
"#;

/// A column without the key `file`.
const WITHOUT_FILE: &str = r#"seed = 1
name = "item"
parent = "t"
lo = 1
hi = 2
[[column]]
name = "word"
kind = "dict"
"#;

/// A column of a kind that only tables of schemas have.
const OF_ANOTHER_KIND: &str = r#"seed = 1
name = "item"
parent = "t"
lo = 1
hi = 2
[[column]]
name = "word"
kind = "list"
file = "own.txt"
"#;

/// The files that are there beside the schema.
const FILES: [(&str, &str); 4] = [
    ("item.toml", DETAILS),
    ("short.toml", WITHOUT_FILE),
    ("other.toml", OF_ANOTHER_KIND),
    ("own.txt", "one\tmany\n"),
];

const RUNS: [Run; 10] = [
    Run {
        words: "pdgf check s.toml",
        schema: SOUND,
        status: 0,
        message: "",
        hints: "",
    },
    Run {
        words: "pdgf row s.toml",
        schema: SOUND,
        status: 2,
        message: "pdgf: usage: missing --unit\n",
        hints: "hint: pdgf row SCHEMA --table N --key K --unit T\n",
    },
    Run {
        words: "pdgf check s.toml",
        schema: SCHEMA,
        status: 4,
        message: "pdgf: rule V19 at table 2 column 2\n",
        hints: r#"hint: orders.customer (line 20): a window is at least 0 and less than the sure life of the parents; "all" is for parents that never die
hint: window 3, sure life of customer 3
"#,
    },
    Run {
        words: "pdgf check s.toml",
        schema: DATED,
        status: 3,
        message: "pdgf: schema: table 1 column 2 key lo: expected date YYYY-MM-DD\n",
        hints: r#"hint: `lo` (line 13) is a date without quotes: a date is a text here, "1940-01-01"
hint: write a date in quotes, such as "1999-12-31"
"#,
    },
    Run {
        words: "pdgf check s.toml",
        schema: MISSPELLED,
        status: 3,
        message: "pdgf: schema: table 1: no such key\n",
        hints: "hint: \"row\" (line 5): the keys here are name, rows, insert, life, update, column\n",
    },
    Run {
        words: "pdgf snapshot s.toml --unit 6",
        schema: SOUND,
        status: 8,
        message: "pdgf: out of range: --unit\n",
        hints: "hint: --unit is 0 to 5\n",
    },
    Run {
        words: "pdgf details s.toml --spec item.toml --unit 0",
        schema: SOUND,
        status: 4,
        message: "pdgf: dictionary 1: bad weight at line 1\n",
        hints: "hint: the word list is \"own.txt\"\n",
    },
    Run {
        words: "pdgf details s.toml --spec item.toml --unit 0",
        schema: SOUND,
        status: 4,
        message: "pdgf: rule E6\n",
        hints: "hint: \"item.toml\": names of word lists have 1 to 255 bytes, and at most 64 differ\n",
    },
    Run {
        words: "pdgf details s.toml --spec short.toml --unit 0",
        schema: SOUND,
        status: 3,
        message: "pdgf: details: wrong form\n",
        hints: "hint: `file` (line 6) is missing\nhint: write a text in quotes, such as \"orders\"\n",
    },
    Run {
        words: "pdgf details s.toml --spec other.toml --unit 0",
        schema: SOUND,
        status: 3,
        message: "pdgf: details: wrong form\n",
        hints: "hint: kind \"list\" (line 8): the kinds of a detail table are int, fixed, date, pick, skew, dict, words, chars, uuid, parent, after, sum, product\n",
    },
];

fn words_of(alloc: Global, line: &str) -> Result<Vec<String>, AllocError> {
    let mut words = Vec::new(alloc);
    for word in line.split(' ') {
        words.push(String::from_str(alloc, word)?)?;
    }
    Ok(words)
}

fn library_of(alloc: Global, schema: &str) -> Result<MemLibrary, AllocError> {
    let mut files = Files::new(alloc);
    add_file(&mut files, "s.toml", schema)?;
    for (name, text) in &FILES {
        add_file(&mut files, name, text)?;
    }
    Ok(MemLibrary::new(alloc, files, LibraryFails::new(alloc)))
}

fn add_file(files: &mut Files, name: &str, text: &str) -> Result<(), AllocError> {
    match files.push(name, text.as_bytes()) {
        Ok(()) => Ok(()),
        Err(_) => Err(AllocError),
    }
}

#[test]
fn runs_that_ended_get_their_hints(rt: HostRuntime) -> Result<(), Fail> {
    let alloc = rt.alloc();
    for run in &RUNS {
        let words = words_of(alloc, run.words)?;
        let mut library = library_of(alloc, run.schema)?;
        let ended = Ended {
            words: words.as_slice(),
            status: run.status,
            message: run.message.as_bytes(),
            fault: None,
        };
        let mut told = Vec::new(alloc);
        tell_hints(alloc, &ended, &mut library, &mut told)?;
        assert_eq!(rt; told.as_slice(), run.hints.as_bytes(), "{}", run.message);
    }
    Ok(())
}
