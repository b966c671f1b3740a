//! Hints on the words of a command line.

use request_words::UsageFault;
use std::alloc::AllocError;

/// The version of the program, the newest one in CHANGELOG.md.
const VERSION: &str = "0.2.0";

/// The modes, each with its call.
const CALLS: [(&str, &str); 12] = [
    (
        "snapshot",
        "SCHEMA --unit T [--table N] [--out DIR] [--format F] [--header H] [--workers W] [--package R] [--node I --nodes M]",
    ),
    (
        "unit",
        "SCHEMA --unit T [--table N] [--out DIR] [--format F] [--header H] [--workers W] [--package R] [--node I --nodes M]",
    ),
    (
        "apply",
        "SCHEMA --from S --to T --in DIR [--table N] [--out DIR2] [--format F] [--header H]",
    ),
    (
        "undo",
        "SCHEMA --unit T [--table N] [--out DIR] [--workers W] [--package R]",
    ),
    (
        "revert",
        "SCHEMA --from T --to S --in DIR [--table N] [--out DIR2]",
    ),
    (
        "details",
        "SCHEMA --spec FILE --unit T [--out DIR] [--workers W] [--package R]",
    ),
    (
        "details-unit",
        "SCHEMA --spec FILE --unit T [--out DIR] [--workers W] [--package R]",
    ),
    (
        "details-apply",
        "SCHEMA --spec FILE --from S --to T --in DIR [--out DIR2]",
    ),
    ("row", "SCHEMA --table N --key K --unit T"),
    ("check", "SCHEMA"),
    ("play", "SCHEMA --to T --store NAME"),
    ("sample", "--size N [--workers W] [--package R]"),
];

/// Appends what the words of a call are: of the mode that stands there, or of all modes.
pub(crate) fn put_usage(
    words: &[String],
    fault: UsageFault,
    hints: &mut String,
) -> Result<(), AllocError> {
    if fault == UsageFault::Memory {
        return Ok(());
    }
    match words.get(1) {
        None => put_version(hints)?,
        Some(first) => {
            if asks_for_help(first.as_str()) {
                put_version(hints)?;
            }
        }
    }
    let named = mode_word(words);
    let is_named = CALLS.iter().any(|call| Some(call.0) == named);
    for call in &CALLS {
        if !is_named || Some(call.0) == named {
            writeln!(hints, "hint: pdgf {} {}", call.0, call.1)?;
        }
    }
    Ok(())
}

/// Whether a first word asks for the usage or the version.
fn asks_for_help(word: &str) -> bool {
    matches!(word, "help" | "--help" | "-h" | "--version")
}

fn put_version(hints: &mut String) -> Result<(), AllocError> {
    writeln!(hints, "hint: pdgf {VERSION}")
}

/// Returns the first word that is no option and no option's value, after the program's name.
fn mode_word(words: &[String]) -> Option<&str> {
    let mut is_value = true; // the program's name stands first
    for word in words {
        let word = word.as_str();
        let is_option = word.starts_with("-");
        if !is_value && !is_option {
            return Some(word);
        }
        is_value = is_option && !is_value && !word.contains("=");
    }
    None
}
