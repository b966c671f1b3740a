//! Hints on files that couldn't be read or written, and on stores.

use crate::Ended;
use crate::schema::{list_numbered, lists_of};
use pd_outside::Library;
use request_words::Request;
use schema_model::Texts;
use std::alloc::{AllocError, Global};
use system_files::LastFault;

/// Appends the file that couldn't be read, and why.
pub(crate) fn put_unread<L: Library>(
    alloc: Global,
    ended: &Ended<'_>,
    request: &Request,
    library: &mut L,
    hints: &mut String,
) -> Result<(), AllocError> {
    let schema = request.schema.as_str();
    let Some(fault) = ended.fault else {
        return Ok(());
    };
    put_fault(&fault, hints)?;
    let Some(name) = fault.name() else {
        return Ok(());
    };
    if name == schema {
        return Ok(());
    }
    match lists_of(alloc, request, library) {
        Some(cited) => {
            if is_among(&cited, name) {
                put_word_list(alloc, schema, name, library, hints)?;
            }
            Ok(())
        }
        None => Ok(()),
    }
}

/// Appends the file that couldn't be written, and why.
pub(crate) fn put_unwritten(ended: &Ended<'_>, hints: &mut String) -> Result<(), AllocError> {
    match ended.fault {
        Some(fault) => put_fault(&fault, hints),
        None => Ok(()),
    }
}

/// Appends the file of a call that failed, and the system's reason.
fn put_fault(fault: &LastFault, hints: &mut String) -> Result<(), AllocError> {
    let reason = fault.reason();
    match fault.name() {
        Some("-") => writeln!(hints, "hint: the standard output: {reason}"),
        Some(name) => writeln!(hints, "hint: {name:?}: {reason}"),
        None => writeln!(hints, "hint: {reason}"),
    }
}

/// Whether a text is among others.
fn is_among(texts: &Texts, name: &str) -> bool {
    texts.as_slice().iter().any(|text| text.as_str() == name)
}

/// Appends where a word list is looked for, and whether one lies beside the schema.
fn put_word_list<L: Library>(
    alloc: Global,
    schema: &str,
    name: &str,
    library: &mut L,
    hints: &mut String,
) -> Result<(), AllocError> {
    writeln!(
        hints,
        "hint: a word list is looked for in the folder that the program runs in"
    )?;
    let Some((folder, _)) = schema.rsplit_once("/") else {
        return Ok(());
    };
    let beside = format!(in alloc; "{folder}/{name}")?;
    if library.start(beside.as_str()).is_ok() {
        writeln!(
            hints,
            "hint: one of that name lies beside the schema: {beside:?}"
        )?;
    }
    Ok(())
}

/// Appends the file that is too long.
pub(crate) fn put_too_long<L: Library>(
    alloc: Global,
    ended: &Ended<'_>,
    request: &Request,
    library: &mut L,
    hints: &mut String,
) -> Result<(), AllocError> {
    let Some(what) = ended.behind("too long: ") else {
        return Ok(());
    };
    match what {
        "schema" => put_longer(request.schema.as_str(), "1,048,576 bytes", hints),
        "details" => put_longer(request.spec.as_str(), "1,048,576 bytes", hints),
        _ => match what.strip_prefix("dictionary ") {
            Some(number) => put_longer_list(alloc, request, number, library, hints),
            None => put_longer(
                what,
                "268,435,456 bytes, together with the inputs before it",
                hints,
            ),
        },
    }
}

/// Appends that a file has more bytes than it can have.
fn put_longer(name: &str, limit: &str, hints: &mut String) -> Result<(), AllocError> {
    writeln!(hints, "hint: {name:?} has more than {limit}")
}

/// Appends that the word list of this number has more bytes than it can have.
fn put_longer_list<L: Library>(
    alloc: Global,
    request: &Request,
    number: &str,
    library: &mut L,
    hints: &mut String,
) -> Result<(), AllocError> {
    match list_numbered(alloc, request, number, library) {
        Some(name) => put_longer(name.as_str(), "16,777,216 bytes", hints),
        None => Ok(()),
    }
}

/// Appends which word list is wrong. Its number stands before the colon of what is told of it.
pub(crate) fn put_wrong_list<L: Library>(
    alloc: Global,
    fault: &str,
    request: &Request,
    library: &mut L,
    hints: &mut String,
) -> Result<(), AllocError> {
    let Some((number, _)) = fault.split_once(":") else {
        return Ok(());
    };
    match list_numbered(alloc, request, number, library) {
        Some(name) => writeln!(hints, "hint: the word list is {:?}", name.as_str()),
        None => Ok(()),
    }
}

/// Appends what stands in the way of a store, as far as it can be seen.
pub(crate) fn put_store_hints<L: Library>(
    store: &str,
    library: &mut L,
    hints: &mut String,
) -> Result<(), AllocError> {
    writeln!(hints, "hint: the store is {store:?}")?;
    if store == ":memory:" {
        return Ok(());
    }
    if library.start(store).is_ok() {
        return writeln!(
            hints,
            "hint: something of this name is there: a store is a new file, or a database without a table, index or view"
        );
    }
    match store.rsplit_once("/") {
        Some((folder, _)) => put_folder(folder, library, hints),
        None => Ok(()),
    }
}

/// Appends that a folder isn't there, if it can't be opened.
fn put_folder<L: Library>(
    folder: &str,
    library: &mut L,
    hints: &mut String,
) -> Result<(), AllocError> {
    if folder.is_empty() || library.start(folder).is_ok() {
        return Ok(());
    }
    writeln!(
        hints,
        "hint: its folder {folder:?} can't be opened: no folder is made"
    )
}
