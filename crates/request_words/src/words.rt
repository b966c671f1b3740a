//! The words of a command line.

ghost use Rattle.std.specs.Prelude.{◌≡◌, ◌≢◌, Ok, Err, map, string_bytes, IfOk, IfErr};
ghost use Rattle.request_words.specs.Ranges.{AreWithinRanges};
ghost use Rattle.request_words.specs.Words.{request};

use crate::command::matches_of;
use crate::form::has_form;
use crate::request::{fault_of, mode_of, request_of};
use crate::usage::{Request, UsageFault};
use std::alloc::Global;

/// Reads the words of a command line, the program's name first.
///
/// After the name stand a mode, at most one schema, and options, in any order. An option is its name after two hyphens, with its
/// value as the next word, or one word of its name, `=` and its value. No option stands twice. No mode, schema or value begins with
/// a hyphen, and no value after `=` is empty.
///
/// `Words` comes first, then `Mode`, then the first fault of the schema and of the options, in this order: unit, from, to, table,
/// key, in, out, workers, package, node, nodes, size, format, store, spec, header. A fault of the words takes no memory. The numbers of
/// a request are within the ranges of the options that its mode takes.
#[tactic(auto, unfolding(crate::specs::Words::request))]
pub fn read_words(alloc: Global, words: &[String]) -> Result<Request, UsageFault>
    ensures read { IfOk result (λ made. request (map string_bytes words.now) ≡ Ok made) }
    ensures refused { IfErr result
        (λ fault. fault ≢ UsageFault.Memory → request (map string_bytes words.now) ≡ Err fault) }
    ensures usage { IfErr (request (map string_bytes words.now)) (λ fault. result ≡ Err fault) }
    ensures ranges { IfOk result AreWithinRanges }
    ensures no_memory { IfErr (request (map string_bytes words.now)) (λ fault. fault ≢ UsageFault.Memory) }
{
    let [_, behind @ ..] = words else {
        return Err(UsageFault::Words);
    };
    if !has_form(behind) {
        return Err(UsageFault::Words);
    }
    let Some(mode) = mode_of(behind) else {
        return Err(UsageFault::Mode);
    };
    if let Some(fault) = fault_of(mode, behind) {
        return Err(fault);
    }
    match matches_of(alloc, words) {
        Ok(matches) => request_of(alloc, mode, &matches),
        Err(_) => Err(UsageFault::Memory),
    }
}
