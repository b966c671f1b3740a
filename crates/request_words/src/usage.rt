//! What words ask for, and why words ask for nothing.

use schema_model::Text;

/// What the program does.
#[derive(Clone, Copy, Debug, PartialEq, Eq)]
pub enum Mode {
    /// Reports the name, rows, sure life, cost and longest line of each table.
    Check,
    /// Writes the text of each table at a unit.
    Snapshot,
    /// Writes what a unit deletes, updates and inserts in each table.
    Unit,
    /// Reports when a row is born and gone, and how it stands at a unit.
    Row,
    /// Applies the streams of units to the texts of tables, and writes the later texts.
    Apply,
    /// Reports what the tables of a built-in schema come to, by a size.
    Sample,
    /// Plays what the units do to the tables into a store.
    Play,
    /// Writes the text of a detail table at a unit.
    Details,
    /// Writes what a unit deletes, updates and inserts in a detail table.
    DetailsUnit,
    /// Applies the streams of units to the text of a detail table, and writes the later text.
    DetailsApply,
    /// Writes the undo text of each table: it takes the table's text from a unit back to the unit before.
    Undo,
    /// Undoes units on the texts of tables, and writes the earlier texts.
    Revert,
}

/// A place for a word: the schema's name, or the value of an option.
#[derive(Clone, Copy, Debug, PartialEq, Eq)]
pub enum OptionName {
    /// The name of the schema's file, written `SCHEMA` in messages.
    Schema,
    /// `--unit`: a time unit.
    Unit,
    /// `--from`: the time unit of the texts that are read.
    From,
    /// `--to`: the time unit to reach.
    To,
    /// `--table`: the name of a table.
    Table,
    /// `--key`: the key of a row.
    Key,
    /// `--in`: the directory of the files that are read.
    In,
    /// `--out`: the directory of the files that are written.
    Out,
    /// `--workers`: how many workers make the lines, 1 to 64.
    Workers,
    /// `--package`: how many rows make a package, 1 to 1,000,000.
    Package,
    /// `--node`: which node writes, from 0.
    Node,
    /// `--nodes`: how many nodes share the rows, 1 to 1,024.
    Nodes,
    /// `--size`: the size of the sample, 1 to 1,000.
    Size,
    /// `--format`: how rows are written and read.
    Format,
    /// `--store`: the name of a store.
    Store,
    /// `--spec`: the name of the file that declares a detail table.
    Spec,
    /// `--header`: whether files in CSV begin with the names of their columns.
    Header,
}

/// How rows are written and read.
#[derive(Clone, Copy, Debug, PartialEq, Eq)]
pub enum Format {
    /// `copy`: lines in COPY text form.
    Copy,
    /// `csv`: records in CSV.
    Csv,
    /// `sql`: statements of SQL. They are only written.
    Sql,
}

/// What files in CSV begin with.
#[derive(Clone, Copy, Debug, PartialEq, Eq)]
pub enum Header {
    /// `none`: their rows.
    None,
    /// `names`: the names of their columns, as one record.
    Names,
}

/// What the words ask for. If the mode doesn't take an option, its number is 0 or its text is empty. Optional fields are None if
/// nothing is given.
#[derive(Debug, PartialEq)]
pub struct Request {
    /// What to do.
    pub mode: Mode,
    /// The name of the schema's file.
    pub schema: Text,
    /// The time unit of a snapshot, of changes or of the report on a row.
    pub unit: u64,
    /// The time unit of the texts that are read.
    pub from: u64,
    /// The time unit to reach: the last unit that is applied or played, or the unit that tables are taken back to. The words can
    /// give any number.
    pub to: u64,
    /// The one table that is wanted; None for all.
    pub table: Option<Text>,
    /// The key of the row that is wanted.
    pub key: u64,
    /// The directory of the files that are read.
    pub source: Text,
    /// The directory of the files that are written; None for the standard output.
    pub out: Option<Text>,
    /// How many workers make the lines, 1 to 64; 4 if the words don't say.
    pub workers: u32,
    /// How many rows make a package, 1 to 1,000,000; None if the words don't say.
    pub package: Option<u64>,
    /// Which node writes, from 0; 0 if the words don't say. The number can be past the last node.
    pub node: u64,
    /// How many nodes share the rows, 1 to 1,024; 1 if the words don't say.
    pub nodes: u64,
    /// The size of the sample, 1 to 1,000.
    pub size: u64,
    /// How rows are written and read. COPY text form, if the words don't say or the mode doesn't take a format.
    pub format: Format,
    /// The name of the store.
    pub store: Text,
    /// The name of the file that declares a detail table.
    pub spec: Text,
    /// What files in CSV begin with. Their rows, if the words don't say or the mode doesn't take a header.
    pub header: Header,
}

impl Drop for Request {
    fn drop(self) {
        let Request {
            mode: _,
            schema,
            unit: _,
            from: _,
            to: _,
            table,
            key: _,
            source,
            out,
            workers: _,
            package: _,
            node: _,
            nodes: _,
            size: _,
            format: _,
            store,
            spec,
            header: _,
        } = self;
        drop(schema);
        drop(table);
        drop(source);
        drop(out);
        drop(store);
        drop(spec);
    }
}

/// Why words give no request.
#[derive(Clone, Copy, Debug, PartialEq, Eq)]
pub enum UsageFault {
    /// The words don't have the form: a mode, at most one schema's name, and options with their values, none twice.
    Words,
    /// No mode has the name.
    Mode,
    /// The mode doesn't take the option that is given, or names are wanted of rows that aren't written as CSV.
    Unwanted(OptionName),
    /// The mode needs the option that isn't given.
    Missing(OptionName),
    /// The value isn't a number of one to twenty digits below 2^64, or is out of the option's range.
    Number(OptionName),
    /// The directory's name is empty.
    EmptyDirectory(OptionName),
    /// The value isn't the name of a format, or the mode reads rows and no rows are read in that format.
    Format,
    /// The value isn't `none` or `names`.
    Header,
    /// Memory ran out.
    Memory,
}
