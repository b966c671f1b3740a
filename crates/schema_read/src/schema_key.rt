//! The keys of a schema's text.

ghost use Rattle.std.specs.Prelude.{◌≡◌};
ghost use Rattle.schema_read.specs.Keys.{key_name};

/// A key of a schema's text, or any further key. Keys with one spelling are one key, wherever they stand.
#[derive(Clone, Copy, Debug, PartialEq, Eq)]
pub enum SchemaKey {
    /// `seed`
    Seed,
    /// `units`
    Units,
    /// `delimiter`
    Delimiter,
    /// `table`
    Table,
    /// `name`
    Name,
    /// `rows`
    Rows,
    /// `insert`
    Insert,
    /// `life`
    Life,
    /// `update`
    Update,
    /// `column`
    Column,
    /// `kind`
    Kind,
    /// `changes`
    Changes,
    /// `null`
    Null,
    /// `base`
    Base,
    /// `scramble`
    Scramble,
    /// `lo`
    Lo,
    /// `hi`
    Hi,
    /// `step`
    Step,
    /// `decimals`
    Decimals,
    /// `entries`
    Entries,
    /// `weights`
    Weights,
    /// `size`
    Size,
    /// `power`
    Power,
    /// `file`
    File,
    /// `alphabet`
    Alphabet,
    /// `parts`
    Parts,
    /// `on`
    On,
    /// `branches`
    Branches,
    /// `window`
    Window,
    /// `spread`
    Spread,
    /// `on_delete`
    OnDelete,
    /// `via`
    Via,
    /// `start`
    Start,
    /// `width`
    Width,
    /// `deal`
    Deal,
    /// `of`
    Of,
    /// `parent`, which a detail table's document has.
    Parent,
    /// A key that has no place where it stands.
    Other,
}

impl SchemaKey {
    /// Returns the key as a schema's text has it. `Other` gives the empty text.
    pub fn name(self) -> &'static str
        ensures { result.now ≡ key_name self }
    {
        match self {
            SchemaKey::Seed => "seed",
            SchemaKey::Units => "units",
            SchemaKey::Delimiter => "delimiter",
            SchemaKey::Table => "table",
            SchemaKey::Name => "name",
            SchemaKey::Rows => "rows",
            SchemaKey::Insert => "insert",
            SchemaKey::Life => "life",
            SchemaKey::Update => "update",
            SchemaKey::Column => "column",
            SchemaKey::Kind => "kind",
            SchemaKey::Changes => "changes",
            SchemaKey::Null => "null",
            SchemaKey::Base => "base",
            SchemaKey::Scramble => "scramble",
            SchemaKey::Lo => "lo",
            SchemaKey::Hi => "hi",
            SchemaKey::Step => "step",
            SchemaKey::Decimals => "decimals",
            SchemaKey::Entries => "entries",
            SchemaKey::Weights => "weights",
            SchemaKey::Size => "size",
            SchemaKey::Power => "power",
            SchemaKey::File => "file",
            SchemaKey::Alphabet => "alphabet",
            SchemaKey::Parts => "parts",
            SchemaKey::On => "on",
            SchemaKey::Branches => "branches",
            SchemaKey::Window => "window",
            SchemaKey::Spread => "spread",
            SchemaKey::OnDelete => "on_delete",
            SchemaKey::Via => "via",
            SchemaKey::Start => "start",
            SchemaKey::Width => "width",
            SchemaKey::Deal => "deal",
            SchemaKey::Of => "of",
            SchemaKey::Parent => "parent",
            SchemaKey::Other => "",
        }
    }
}
