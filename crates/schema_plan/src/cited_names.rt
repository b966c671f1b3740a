//! The dictionaries that a schema cites.

ghost use Rattle.std.specs.Prelude.{◌≡◌, IfOk, is_some};
ghost use Rattle.std.specs.List.{list_all, list_any};
ghost use Rattle.schema_plan.specs.Citations.{leaves_of, may_cite, may_cite_all, may_cite_of_kind};
ghost use Rattle.schema_facts.specs.Dictionaries.{dictionary_named};
ghost use Rattle.schema_facts.specs.Names.{same_text};
ghost use Rattle.schema_plan.specs.Rules.{are_supplied_by, is_supplied_by, is_supplied_kind_by};

use out_of_memory::Memory;
use schema_facts::Dictionaries;
use schema_model::{Column, Kind, Leaf, Schema, Text, Texts};
use std::alloc::Global;
use std::marker::Model;
use std::slice;

/// The most different dictionaries that a schema can cite.
const MAX_NAMES: usize = 64;

/// The most bytes of a dictionary's name.
const MAX_LEN: usize = 255;

/// Returns the values that are drawn for a column: that of a leaf, or those of the branches of a case.
pub fn leaves_of(kind: &Kind) -> &[Leaf]
    ensures { result.now ≡ leaves_of kind.now }
{
    match kind {
        Kind::Leaf(leaf) => slice::from_ref(leaf),
        Kind::Case { branches, .. } => branches.as_slice(),
        _ => &[],
    }
}

/// The first different names that a schema cites, at most 64. A contract sees them as a list.
#[derive(Drop)]
pub struct CitedNames<'a> {
    names: [&'a str; MAX_NAMES],
    count: usize,
}

impl<'a> Model for CitedNames<'a> {
    ghost use Rattle.std.specs.Prelude.{ℕ, ◌≤◌, List, map, take};

    ghost Value = { List (List ℕ) };

    ghost view = { λ n. map (λ name. name.now) (take n.count n.names) };

    ghost invariant = { λ n. n.count ≤ 64 };
}

impl<'a> CitedNames<'a> {
    ghost use Rattle.std.specs.Prelude.{◌≡◌, ℕ, ◌<◌, List, [], ◌∷◌, ◌++◌, flat_map, length, map, take};
    ghost use Rattle.std.specs.List.{fold};
    ghost use Rattle.schema_plan.specs.Citations.{cited_in, cited_names, has_name, names_in_columns, names_in_kind, names_in_leaf, with_name};

    /// Returns no names.
    fn none() -> CitedNames<'a>
        ensures { result ≡ [] }
    {
        CitedNames {
            names: [""; MAX_NAMES],
            count: 0,
        }
    }

    /// Returns the names, in order.
    fn as_slice(&self) -> &[&'a str]
        ensures { map (λ name. name.now) result.now ≡ self.now }
    {
        &self.names[..self.count]
    }

    /// Whether a name is one of these names.
    fn has(&self, name: &str) -> bool
        ensures { result ≡ has_name self.now name.now }
    {
        is_among(self.as_slice(), name)
    }

    /// Returns the first names that the tables of a schema cite.
    #[tactic(auto, unfolding(crate::specs::Citations::cited_names))]
    pub fn of(schema: &'a Schema) -> CitedNames<'a>
        ensures { result ≡ cited_names schema.now.tables }
    {
        let mut names = CitedNames::none();
        for table in schema.tables.as_slice() {
            names.add_columns(table.columns.as_slice());
        }
        names
    }

    /// Returns the first names that some columns cite.
    #[tactic(auto, unfolding(crate::specs::Citations::cited_in))]
    pub fn of_columns(columns: &'a [Column]) -> CitedNames<'a>
        ensures { result ≡ cited_in columns.now }
    {
        let mut names = CitedNames::none();
        names.add_columns(columns);
        names
    }

    /// Adds the names that some columns cite.
    fn add_columns(&mut self, columns: &'a [Column])
        ensures { (before : List (List ℕ)) → self.old ≡ take 64 before →
            self.new ≡ take 64 (fold with_name before (names_in_columns columns.now)) }
    {
        for column in columns {
            self.add_column(column);
        }
    }

    /// Adds the names that a column cites.
    fn add_column(&mut self, column: &'a Column)
        ensures { (before : List (List ℕ)) → self.old ≡ take 64 before →
            self.new ≡ take 64 (fold with_name before (names_in_kind column.now.kind)) }
    {
        match &column.kind {
            Kind::List { file } => self.add(file.as_str()),
            kind => self.add_leaves(leaves_of(kind)),
        }
    }

    /// Adds the names that some drawn values cite.
    fn add_leaves(&mut self, leaves: &'a [Leaf])
        ensures { (before : List (List ℕ)) → self.old ≡ take 64 before →
            self.new ≡ take 64 (fold with_name before (flat_map names_in_leaf leaves.now)) }
    {
        for leaf in leaves {
            self.add_leaf(leaf);
        }
    }

    /// Adds the name that a drawn value cites, if it cites one.
    fn add_leaf(&mut self, leaf: &'a Leaf)
        ensures { (before : List (List ℕ)) → self.old ≡ take 64 before →
            self.new ≡ take 64 (fold with_name before (names_in_leaf leaf.now)) }
    {
        match leaf {
            Leaf::Dict { file } | Leaf::Words { file, .. } => self.add(file.as_str()),
            _ => {}
        }
    }

    /// Adds a name, if it is new and there is room.
    fn add(&mut self, name: &'a str)
        ensures { (before : List (List ℕ)) → self.old ≡ take 64 before →
            self.new ≡ take 64 (with_name before name.now) }
    {
        if self.len() < MAX_NAMES && !self.has(name) {
            self.push(name);
        }
    }

    /// Returns the number of names.
    fn len(&self) -> usize
        ensures { result ≡ length self.now }
    {
        self.count
    }

    /// Appends a name.
    fn push(&mut self, name: &'a str)
        requires { length self.old < 64 }
        ensures { self.new ≡ self.old ++ name.now ∷ [] }
    {
        self.names[self.count] = name;
        self.count += 1;
    }
}

/// Whether a name is one of some names.
fn is_among(names: &[&str], name: &str) -> bool
    ensures { result ≡ list_any (λ other. same_text other.now name.now) names.now }
{
    names.iter().any(|other| *other == name)
}

/// Whether a column of this kind cites only names of 1 to 255 bytes that are among the first ones.
pub fn is_citable_kind(names: &CitedNames<'_>, kind: &Kind) -> bool
    ensures { result ≡ may_cite_of_kind names.now kind.now }
{
    match kind {
        Kind::List { file } => is_citable(names, file),
        _ => are_citable(names, leaves_of(kind)),
    }
}

/// Whether some drawn values cite only such names.
fn are_citable(names: &CitedNames<'_>, leaves: &[Leaf]) -> bool
    ensures { result ≡ list_all (may_cite_all names.now) leaves.now }
{
    leaves.iter().all(|leaf| is_citable_leaf(names, leaf))
}

fn is_citable_leaf(names: &CitedNames<'_>, leaf: &Leaf) -> bool
    ensures { result ≡ may_cite_all names.now leaf.now }
{
    match leaf {
        Leaf::Dict { file } | Leaf::Words { file, .. } => is_citable(names, file),
        _ => true,
    }
}

fn is_citable(names: &CitedNames<'_>, name: &Text) -> bool
    ensures { result ≡ may_cite names.now name.now }
{
    1 <= name.len() && name.len() <= MAX_LEN && names.has(name.as_str())
}

/// Whether a column of this kind cites only names that can be cited and have a dictionary.
pub fn is_supplied_kind(names: &CitedNames<'_>, dictionaries: &Dictionaries, kind: &Kind) -> bool
    ensures { result ≡ is_supplied_kind_by names.now dictionaries.now kind.now }
{
    match kind {
        Kind::List { file } => is_supplied(names, dictionaries, file),
        _ => are_supplied(names, dictionaries, leaves_of(kind)),
    }
}

/// Whether some drawn values cite only such names.
fn are_supplied(names: &CitedNames<'_>, dictionaries: &Dictionaries, leaves: &[Leaf]) -> bool
    ensures { result ≡ list_all (are_supplied_by names.now dictionaries.now) leaves.now }
{
    leaves
        .iter()
        .all(|leaf| is_supplied_leaf(names, dictionaries, leaf))
}

fn is_supplied_leaf(names: &CitedNames<'_>, dictionaries: &Dictionaries, leaf: &Leaf) -> bool
    ensures { result ≡ are_supplied_by names.now dictionaries.now leaf.now }
{
    match leaf {
        Leaf::Dict { file } | Leaf::Words { file, .. } => is_supplied(names, dictionaries, file),
        _ => true,
    }
}

fn is_supplied(names: &CitedNames<'_>, dictionaries: &Dictionaries, name: &Text) -> bool
    ensures { result ≡ is_supplied_by names.now dictionaries.now name.now }
{
    is_citable(names, name) && dictionaries.has(name.as_str())
}

/// Copies the names as texts. Refuses if memory is wanting.
pub fn copied_names(alloc: Global, names: &CitedNames<'_>) -> Result<Texts, Memory>
    ensures { IfOk result (λ copied. copied ≡ names.now) }
{
    let mut copied = Texts::new(alloc);
    for name in names.as_slice() {
        copied.push(Text::of(alloc, name)?)?;
    }
    Ok(copied)
}
