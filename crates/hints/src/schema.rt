//! The schema, read anew, and hints on what is wrong with it.

use crate::keys::{put_key_hints, put_syntax};
use crate::rules::{Broken, put_rule};
use detail_plan::{detail_citations, read_detail};
use dictionaries::read_dictionary;
use pd_outside::{Library, read_whole};
use request_words::Request;
use schema_check::{CheckFault, check, citations};
use schema_facts::{Dictionaries, MAX_ITEMS, NO_FACTS, TableFacts, fill_facts};
use schema_model::{Schema, Text, Texts};
use schema_plan::Plan;
use schema_read::{ReadSchemaFault, read_schema};
use std::alloc::{AllocError, Global};

/// The most bytes of a schema's text, and of a declaration.
const TEXT_LIMIT: u64 = 1_048_576;

/// The most bytes of a word list.
const DICTIONARY_LIMIT: u64 = 16_777_216;

/// Returns the bytes of a schema's or a declaration's text, if it can be read.
pub(crate) fn text_of<L: Library>(alloc: Global, name: &str, library: &mut L) -> Option<Vec<u8>> {
    read_whole(alloc, library, name, TEXT_LIMIT).ok()
}

/// Returns the schema of a file, if the file has one.
fn schema_of<L: Library>(alloc: Global, name: &str, library: &mut L) -> Option<Schema> {
    let bytes = text_of(alloc, name, library)?;
    read_schema(alloc, bytes.as_slice()).ok()
}

/// Returns the names of the word lists that the schema of a file cites.
fn cited_in<L: Library>(alloc: Global, name: &str, library: &mut L) -> Option<Texts> {
    let schema = schema_of(alloc, name, library)?;
    citations(alloc, &schema).ok()
}

/// Returns the names of the word lists that only the declaration of a detail table cites, if the schema has a plan.
fn own_lists<L: Library>(alloc: Global, request: &Request, library: &mut L) -> Option<Texts> {
    let plan = plan_of(alloc, request.schema.as_str(), library)?;
    let bytes = text_of(alloc, request.spec.as_str(), library)?;
    let detail = read_detail(alloc, bytes.as_slice()).ok()?;
    detail_citations(alloc, &plan, &detail).ok()
}

/// Returns the names of the word lists of a request, in the order of their numbers in messages.
pub(crate) fn lists_of<L: Library>(
    alloc: Global,
    request: &Request,
    library: &mut L,
) -> Option<Texts> {
    let mut names = cited_in(alloc, request.schema.as_str(), library)?;
    if request.spec.as_str().is_empty() {
        return Some(names);
    }
    if let Some(own) = own_lists(alloc, request, library) {
        for name in own.as_slice() {
            names.push(Text::of(alloc, name.as_str()).ok()?).ok()?;
        }
    }
    Some(names)
}

/// Returns the name of the word list that has a number in messages.
pub(crate) fn list_numbered<L: Library>(
    alloc: Global,
    request: &Request,
    number: &str,
    library: &mut L,
) -> Option<Text> {
    let names = lists_of(alloc, request, library)?;
    let place = number.parse::<usize>().ok()?.checked_sub(1)?;
    Text::of(alloc, names.as_slice().get(place)?.as_str()).ok()
}

/// Returns the plan of the schema of a file, if it has one.
pub(crate) fn plan_of<L: Library>(alloc: Global, name: &str, library: &mut L) -> Option<Plan> {
    let schema = schema_of(alloc, name, library)?;
    let cited = citations(alloc, &schema).ok()?;
    let dictionaries = dictionaries_of(alloc, &cited, library).ok()?;
    check(alloc, schema, dictionaries).ok()
}

/// Reads the word lists of these names, up to the first that can't be read. Returns the name of that one.
fn dictionaries_of<'a, L: Library>(
    alloc: Global,
    names: &'a Texts,
    library: &mut L,
) -> Result<Dictionaries, &'a str> {
    let mut dictionaries = Dictionaries::new(alloc);
    for text in names.as_slice() {
        let name = text.as_str();
        if add_dictionary(alloc, name, library, &mut dictionaries).is_none() {
            return Err(name);
        }
    }
    Ok(dictionaries)
}

/// Reads the word list of a name and appends it to the others.
fn add_dictionary<L: Library>(
    alloc: Global,
    name: &str,
    library: &mut L,
    dictionaries: &mut Dictionaries,
) -> Option<()> {
    let bytes = read_whole(alloc, library, name, DICTIONARY_LIMIT).ok()?;
    let words = read_dictionary(alloc, bytes.as_slice()).ok()?;
    dictionaries.push(name, words).ok()
}

/// Appends what is wrong with the schema of a file.
pub(crate) fn put_schema_hints<L: Library>(
    alloc: Global,
    name: &str,
    library: &mut L,
    hints: &mut String,
) -> Result<(), AllocError> {
    let Some(bytes) = text_of(alloc, name, library) else {
        return Ok(());
    };
    let text = match std::str::from_utf8(bytes.as_slice()) {
        Ok(text) => text,
        Err(error) => return put_no_utf8(error.valid_up_to(), hints),
    };
    match read_schema(alloc, bytes.as_slice()) {
        Err(ReadSchemaFault::Syntax) => put_syntax(alloc, text, hints),
        Err(
            ReadSchemaFault::Shape {
                place,
                key,
                expected,
            },
        ) => put_key_hints(alloc, text, place, key, expected, hints),
        Err(_) => Ok(()),
        Ok(schema) => put_citations(alloc, text, &schema, library, hints),
    }
}

/// Appends which byte of a text isn't UTF-8.
pub(crate) fn put_no_utf8(at: usize, hints: &mut String) -> Result<(), AllocError> {
    writeln!(hints, "hint: the text isn't UTF-8 at byte {at}, from 0")
}

/// Appends which word list is wrong, or which rule the schema breaks.
fn put_citations<L: Library>(
    alloc: Global,
    text: &str,
    schema: &Schema,
    library: &mut L,
    hints: &mut String,
) -> Result<(), AllocError> {
    match citations(alloc, schema) {
        Err(fault) => {
            let facts = facts_of(schema, &Dictionaries::new(alloc));
            put_fault(text, schema, &facts, fault, hints)
        }
        Ok(names) => match dictionaries_of(alloc, &names, library) {
            Err(name) => writeln!(hints, "hint: the word list is {name:?}"),
            Ok(dictionaries) => put_check(alloc, text, schema, dictionaries, hints),
        },
    }
}

/// Appends which rule the schema breaks with its word lists.
fn put_check(
    alloc: Global,
    text: &str,
    schema: &Schema,
    dictionaries: Dictionaries,
    hints: &mut String,
) -> Result<(), AllocError> {
    let facts = facts_of(schema, &dictionaries);
    let Ok(same) = read_schema(alloc, text.as_bytes()) else {
        return Ok(());
    };
    match check(alloc, same, dictionaries) {
        Ok(_) => Ok(()),
        Err(fault) => put_fault(text, schema, &facts, fault, hints),
    }
}

/// Returns the facts of the first tables of a schema.
fn facts_of(schema: &Schema, dictionaries: &Dictionaries) -> [TableFacts; MAX_ITEMS] {
    let mut facts = [NO_FACTS; MAX_ITEMS];
    let count = schema.tables.len().min(MAX_ITEMS);
    fill_facts(schema, dictionaries, &mut facts[..count]);
    facts
}

/// Appends a broken rule.
fn put_fault(
    text: &str,
    schema: &Schema,
    facts: &[TableFacts],
    fault: CheckFault,
    hints: &mut String,
) -> Result<(), AllocError> {
    match fault {
        CheckFault::Rule {
            number,
            table,
            column,
        } => {
            let broken = Broken {
                number,
                table,
                column,
                schema,
                facts,
            };
            put_rule(text, &broken, hints)
        }
        CheckFault::Memory => Ok(()),
    }
}
