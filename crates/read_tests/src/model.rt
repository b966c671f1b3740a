//! The types of a schema.

use schema_model::{Longs, Text, Texts};
use schema_read::read_schema;
use std::alloc::Global;
use std::process::Abort;
use std::thread;

fn text(rt: &impl Abort, alloc: Global, text: &str) -> Text {
    Text::of(alloc, text).expect(rt, "memory")
}

/// Makes the text `Zoë!` from two pieces.
fn name(rt: &impl Abort, alloc: Global) -> Text {
    let mut name = Text::new(alloc);
    assert!(rt; name.is_empty());
    name.push("Zoë").expect(rt, "memory");
    name.push("!").expect(rt, "memory");
    name
}

// Each text and each list takes what is put into it. Two of them are equal exactly if they hold the same.
#[test]
fn texts_hold_what_is_put_in(rt: HostRuntime) {
    let alloc = rt.alloc();
    let name = name(&rt, alloc);
    assert!(rt; name.as_str() == "Zoë!" && name.len() == 5);
    assert!(rt; name == text(&rt, alloc, "Zoë!"));
    assert!(rt; name != text(&rt, alloc, "Zoe!"));
}

#[test]
fn numbers_hold_what_is_put_in(rt: HostRuntime) {
    let mut weights = Longs::new(rt.alloc());
    assert!(rt; weights.is_empty());
    weights.push(-3).expect(&rt, "memory");
    weights.push(i64::MAX).expect(&rt, "memory");
    assert!(rt; weights.as_slice() == [-3, i64::MAX].as_slice() && weights.len() == 2);
    assert!(rt; *weights.get(1) == i64::MAX);
}

#[test]
fn lists_of_texts_hold_what_is_put_in(rt: HostRuntime) {
    let alloc = rt.alloc();
    let mut entries = Texts::new(alloc);
    entries.push(name(&rt, alloc)).expect(&rt, "memory");
    let mut same = Texts::new(alloc);
    same.push(text(&rt, alloc, "Zoë!")).expect(&rt, "memory");
    assert!(rt; entries == same);
    same.push(text(&rt, alloc, "")).expect(&rt, "memory");
    assert!(rt; entries != same);
}

const BORN: &[u8] = b"seed=1\nunits=2\ntable=[{name='t',rows=1,column=[{name='id',kind='born'}]}]";

const CHANGED: &[u8] =
    b"seed=1\nunits=2\ntable=[{name='t',rows=1,column=[{name='id',kind='changed'}]}]";

/// Whether two texts give equal schemas.
fn are_equal(rt: &impl Abort, alloc: Global, left: &[u8], right: &[u8]) -> bool {
    let left = read_schema(alloc, left).expect(rt, "no schema");
    let right = read_schema(alloc, right).expect(rt, "no schema");
    left == right
}

#[test]
fn schemas_are_equal_where_they_hold_the_same(rt: HostRuntime) {
    assert!(rt; are_equal(&rt, rt.alloc(), BORN, BORN));
    assert!(rt; !are_equal(&rt, rt.alloc(), BORN, CHANGED));
}

// Two threads read one schema at the same time.
#[test]
fn threads_share_a_schema(rt: HostRuntime) {
    let schema = read_schema(rt.alloc(), BORN).expect(&rt, "no schema");
    let read = thread::join(&rt, || schema.seed, || schema.tables.len());
    assert!(rt; read == (1, 1));
}
