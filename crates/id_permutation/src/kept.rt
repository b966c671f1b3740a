//! Kept orders, one after the other. An order has tables if they pay, else it goes by rounds.

ghost use Rattle.std.specs.Prelude.{◌≡◌, ◌==◌, ◌+◌, ◌<◌, ◌≤◌, ◌^◌, ◌++◌, ◌∷◌, [], Some, IfSome, IfOk, OnOk, OnErr, length, slice_get};
ghost use Rattle.id_permutation.specs.Order.{Arrangement};
ghost use Rattle.id_permutation.specs.OrderList.{OrderList};
ghost use Rattle.id_permutation.specs.Kept.{arrangement_by, form_entries, tables_by, IsFormOf, IsCountable};

use crate::forms::{Form, form_index, permutation_form, tables_for};
use crate::order::Order;
use out_of_memory::Memory;
use std::alloc::Global;
use std::marker::Model;

/// A kept order of 16 bytes: the place of its form, where its tables begin, if it has any, and its seed, if it has one.
#[derive(Clone, Copy)]
struct KeptOrder {
    form: u32,
    first: u32,
    seed: u64,
}

/// Kept orders. A contract sees their list and the number of entries of all tables, of two bytes each. An order takes 16 bytes. The
/// divisors of its rounds are kept once for adjacent orders of one size.
pub struct KeptOrders {
    alloc: Global,
    forms: Vec<Form>,
    orders: Vec<KeptOrder>,
    entries: Vec<u16>,
}

impl Drop for KeptOrders {
    fn drop(self) {
        let KeptOrders {
            alloc: _,
            forms,
            orders,
            entries,
        } = self;
        drop(forms);
        drop(orders);
        drop(entries);
    }
}

impl Model for KeptOrders {
    ghost use Rattle.id_permutation.specs.OrderList.{OrderList};

    ghost Value = { OrderList };

    ghost use Rattle.std.specs.Prelude.{map, length};
    ghost use Rattle.id_permutation.specs.Kept.{arrangement_of, AreKept};

    ghost view = { λ k. record { orders = map (arrangement_of k.forms.items) k.orders.items; entries = length k.entries.items } };

    ghost invariant = { λ k. AreKept k.forms.items k.entries.items k.orders.items };
}

impl KeptOrders {
    /// Returns no orders. Takes no memory.
    pub fn new(alloc: Global) -> KeptOrders
        ensures none { result.orders ≡ [] }
        ensures no_entries { result.entries ≡ 0 }
    {
        KeptOrders {
            alloc,
            forms: Vec::new(alloc),
            orders: Vec::new(alloc),
            entries: Vec::new(alloc),
        }
    }

    /// Keeps one more order of up to 2^40 numbers. Without a seed each number is in its own place. With a seed it is the
    /// permutation of one or more numbers by `seed`. The order has tables exactly if they pay for all its numbers, at most 2^32,
    /// have at most `room` entries, and end by 2^32 - 1 entries. Refused only if memory runs out, or if there would be more than
    /// 2^32 forms. Then nothing more is kept.
    pub fn push(&mut self, size: u64, seed: Option<u64>, room: u64) -> Result<(), Memory>
        requires some { IfSome seed (λ _. 1 ≤ size) }
        requires small { size ≤ 2 ^ 40 }
        ensures kept { OnOk result (self.new.orders ≡ self.old.orders ++ (record { size = size; seed = seed }) ∷ []) }
        ensures more { self.old.entries ≤ self.new.entries }
        ensures within { self.new.entries ≤ self.old.entries + room }
        ensures refused { OnErr result (self.new ≡ self.old) }
    {
        match seed {
            None => self.push_form(Form::InPlace(size), 0),
            Some(seed) => {
                let form = permutation_form(&self.forms, size, self.entries.len(), room);
                self.push_form(form, seed)
            }
        }
    }

    /// Returns the number of kept orders.
    pub fn len(&self) -> usize
        ensures { result ≡ length self.now.orders }
    {
        self.orders.len()
    }

    /// Whether no order is kept.
    pub fn is_empty(&self) -> bool
        ensures { result ≡ (length self.now.orders == 0) }
    {
        self.orders.is_empty()
    }

    /// Returns the number of entries that the tables of all orders have together, of two bytes each.
    pub fn entries(&self) -> u64
        ensures { result ≡ self.now.entries }
    {
        self.entries.len() as u64
    }

    /// Returns the order `k`, from 0.
    #[inline(always)]
    pub fn get(&self, k: usize) -> Order<'_>
        requires { k < length self.now.orders }
        ensures { slice_get self.now.orders k ≡ Some result }
    {
        let order = self.orders[k];
        match self.forms[order.form as usize] {
            Form::InPlace(size) => Order::in_place(size),
            Form::Rounds(shape) => Order::of_shape(&shape, order.seed),
            Form::Tables(shape) => {
                let first = order.first as usize;
                let past = first + shape.entries() as usize;
                Order::of_tables(shape.network(order.seed), &self.entries[first..past])
            }
        }
    }

    fn push_form(&mut self, form: Form, seed: u64) -> Result<(), Memory>
        requires { IsCountable form self.old.entries }
        ensures kept { OnOk result (self.new.orders ≡ self.old.orders ++ arrangement_by form seed ∷ []) }
        ensures entries { OnOk result (self.new.entries ≡ self.old.entries + form_entries form) }
        ensures refused { OnErr result (self.new ≡ self.old) }
    {
        let tables = tables_for(self.alloc, &form, seed)?;
        let index = form_index(&mut self.forms, form)?;
        let order = KeptOrder {
            form: index,
            first: self.entries.len() as u32,
            seed,
        };
        keep(&mut self.orders, &mut self.entries, order, &tables)?;
        Ok(())
    }
}

/// Appends an order and its tables, or neither.
fn keep(
    orders: &mut Vec<KeptOrder>,
    entries: &mut Vec<u16>,
    order: KeptOrder,
    tables: &[u16],
) -> Result<(), Memory>
    ensures order { OnOk result (orders.new.items ≡ orders.old.items ++ order ∷ []) }
    ensures tables { OnOk result (entries.new.items ≡ entries.old.items ++ tables.now) }
    ensures no_order { OnErr result (orders.new.items ≡ orders.old.items) }
    ensures no_tables { OnErr result (entries.new.items ≡ entries.old.items) }
{
    orders.reserve(1)?;
    entries.extend_from_slice(tables)?;
    orders.push(order)?;
    Ok(())
}
