//! The forms of kept orders, and the form that an order gets.

ghost use Rattle.std.specs.Prelude.{◌≡◌, ◌-◌, ◌<◌, ◌≤◌, ◌^◌, IsTrue, IfOk, OnErr, length};
ghost use Rattle.id_permutation.specs.Kept.{form_at, form_entries, tables_by, IsFormOf, IsCountable, IsSmall, AreMore};
ghost use Rattle.id_permutation.specs.Placement.{height_of, width_of};
ghost use Rattle.id_permutation.specs.Tables.{tables_of};

use crate::shape::Shape;
use crate::tables::tables;
use out_of_memory::Memory;
use std::alloc::Global;

const LARGEST: u64 = u32::MAX as u64;

/// How orders of one size are kept: with each of their numbers in its own place, by rounds, or by tables.
#[derive(Clone, Copy)]
pub enum Form {
    InPlace(u64),
    Rounds(Shape),
    Tables(Shape),
}

/// Returns the form of a permutation of `size` numbers that is kept after `forms` and `kept` entries. It is by tables exactly if there
/// are at most 2^32 numbers and the tables pay for all of them, have at most `room` entries, and end by 2^32 - 1 entries. Else it is
/// by rounds.
pub fn permutation_form(forms: &[Form], size: u64, kept: usize, room: u64) -> Form
    requires some { 1 ≤ size }
    requires small { size ≤ 2 ^ 40 }
    ensures exact { IsFormOf size result }
    ensures room { form_entries result ≤ room }
    ensures fits { IsCountable result kept }
{
    let shape = shape_of(forms, size);
    let entries = shape.entries();
    let left = LARGEST.saturating_sub(kept as u64);
    if size <= LARGEST + 1 && entries <= size.min(room).min(left) {
        Form::Tables(shape)
    } else {
        Form::Rounds(shape)
    }
}

/// Returns the shape of `size` numbers. Takes the last form's shape if it has this size.
fn shape_of(forms: &[Form], size: u64) -> Shape
    requires some { 1 ≤ size }
    requires small { size ≤ 2 ^ 40 }
    ensures { result ≡ size }
{
    match last_shape(forms) {
        Some(shape) if shape.size() == size => shape,
        _ => Shape::new(size),
    }
}

fn last_shape(forms: &[Form]) -> Option<Shape> {
    match forms.last() {
        Some(Form::Rounds(shape)) => Some(*shape),
        Some(Form::Tables(shape)) => Some(*shape),
        _ => None,
    }
}

/// Makes the tables of an order of this form by `seed`. Only the form by tables has any.
pub fn tables_for(alloc: Global, form: &Form, seed: u64) -> Result<Vec<u16>, Memory>
    requires { IsSmall form.now }
    ensures { IfOk result (λ tables. tables.items ≡ tables_by form.now seed) }
{
    match form {
        Form::Tables(shape) => shape_tables(alloc, shape, seed),
        _ => Ok(Vec::new(alloc)),
    }
}

fn shape_tables(alloc: Global, shape: &Shape, seed: u64) -> Result<Vec<u16>, Memory>
    requires { shape.now ≤ 2 ^ 32 }
    ensures { IfOk result (λ tables. tables.items ≡ tables_of (height_of shape.now) (width_of shape.now) seed) }
{
    let network = shape.network(seed);
    let tables = tables(alloc, &network)?;
    Ok(tables)
}

/// Returns the place of a form in `forms`. If it isn't the last form there, appends it. At `Memory` `forms` stays as it was.
pub fn form_index(forms: &mut Vec<Form>, form: Form) -> Result<u32, Memory>
    ensures more { AreMore forms.old.items forms.new.items }
    ensures below { IfOk result (λ index. index < length forms.new.items) }
    ensures exact { IfOk result (λ index. form_at forms.new.items index ≡ form) }
    ensures refused { OnErr result (forms.new.items ≡ forms.old.items) }
{
    let shared = is_last(forms, &form);
    let index = forms.len() - usize::from(shared);
    if index as u64 > LARGEST {
        return Err(Memory);
    }
    if !shared {
        forms.push(form)?;
    }
    Ok(index as u32)
}

fn is_last(forms: &[Form], form: &Form) -> bool
    ensures some { IsTrue result → 0 < length forms.now }
    ensures last { IsTrue result → form_at forms.now (length forms.now - 1) ≡ form.now }
{
    !forms.is_empty() && is_same(&forms[forms.len() - 1], form)
}

fn is_same(form: &Form, other: &Form) -> bool
    ensures { IsTrue result → form.now ≡ other.now }
{
    match (form, other) {
        (Form::InPlace(size), Form::InPlace(same)) => *size == *same,
        (Form::Rounds(shape), Form::Rounds(same)) => shape.size() == same.size(),
        (Form::Tables(shape), Form::Tables(same)) => shape.size() == same.size(),
        _ => false,
    }
}
