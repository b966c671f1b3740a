//! The sites of a schema, at which rules are tried.

ghost use Rattle.std.specs.Prelude.{◌≡◌, ◌<◌, ◌^◌};
ghost use Rattle.schema_plan.specs.Sites.{column_number, table_number};

/// A site of a schema. Tables and columns are named by their places, counted from 0.
#[derive(Clone, Copy, Debug, PartialEq, Eq)]
pub enum Site {
    /// The schema as a whole.
    Whole,
    /// A table as a whole.
    OfTable(usize),
    /// A column: the place of its table, and then its own place.
    OfColumn(usize, usize),
}

impl Site {
    /// Returns the table's number, counted from 1. It is 0 if the site has no table.
    pub fn table_number(self) -> u64
        requires { table_number self < 2 ^ 64 }
        ensures { result ≡ table_number self }
    {
        match self {
            Site::Whole => 0,
            Site::OfTable(table) | Site::OfColumn(table, _) => table as u64 + 1,
        }
    }

    /// Returns the column's number, counted from 1. It is 0 if the site has no column.
    pub fn column_number(self) -> u64
        requires { column_number self < 2 ^ 64 }
        ensures { result ≡ column_number self }
    {
        match self {
            Site::Whole | Site::OfTable(_) => 0,
            Site::OfColumn(_, column) => column as u64 + 1,
        }
    }
}
