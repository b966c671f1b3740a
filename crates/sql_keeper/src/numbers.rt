//! The numbers of rows and of references in a database.

ghost use Rattle.std.specs.Prelude.{◌≡◌, ◌<◌, ◌≤◌, ◌↔◌, ℕ, ◌-◌, ◌^◌, IfOk, IfSome, IsOk, IsTrue, OnOk, is_some, max, min, pos};
ghost use Rattle.sql_keeper.specs.Numbers.{HasKey, reference_number, row_number};

use crate::Refused;
use sqlite::types::ValueRef;

/// The most tables of rows.
const TABLES: usize = 64;

/// The most columns of a table.
const COLUMNS: u32 = 64;

/// The keys of a table lie less than this apart, since it has no more rows.
const KEYS: u64 = 1 << 40;

/// The number of a row. It is made of the place of the table and the remainder of the key, so that the rows of a table stand together. No two
/// rows have the same number if their keys lie near enough.
#[derive(Clone, Copy, PartialEq, Eq, PartialOrd, Ord)]
pub(crate) struct RowNumber(i64);

impl RowNumber {
    /// Returns the number of the row with a key in the table at a place.
    fn new(table: u32, key: u64) -> Result<RowNumber, Refused>
        ensures made { table < 64 → IsOk result }
        ensures number { IfOk result (λ row. row.0 ≡ pos (row_number table key)) }
    {
        let first = i64::from(table).checked_mul(KEYS as i64).ok_or(Refused)?;
        let number = first.checked_add((key % KEYS) as i64).ok_or(Refused)?;
        Ok(RowNumber(number))
    }

    /// Returns the number as a database has it.
    pub(crate) fn value(self) -> ValueRef<'static> {
        ValueRef::Int(self.0)
    }

    /// Returns the number of the row's reference in the column at a place.
    pub(crate) fn reference(self, column: u32) -> Result<ReferenceNumber, Refused>
        ensures column { OnOk result (column < 64) }
        ensures number { (row : ℕ) → self.0 ≡ pos row → IfOk result (λ number. number.0 ≡ pos (reference_number row column)) }
    {
        if column >= COLUMNS {
            return Err(Refused);
        }
        let first = self.0.checked_mul(i64::from(COLUMNS)).ok_or(Refused)?;
        let number = first.checked_add(i64::from(column)).ok_or(Refused)?;
        Ok(ReferenceNumber(number))
    }

    /// Returns the least and the greatest number that references of the row can have.
    pub(crate) fn references(self) -> Result<(ReferenceNumber, ReferenceNumber), Refused>
        ensures first { (row : ℕ) → self.0 ≡ pos row → IfOk result (λ range. range.0.0 ≡ pos (reference_number row 0)) }
        ensures last { (row : ℕ) → self.0 ≡ pos row → IfOk result (λ range. range.1.0 ≡ pos (reference_number row 63)) }
    {
        Ok((self.reference(0)?, self.reference(COLUMNS - 1)?))
    }
}

/// The number of a reference. It is made of the number of its row and the place of its column, so that the references of a row stand
/// together.
#[derive(Clone, Copy)]
pub(crate) struct ReferenceNumber(i64);

impl ReferenceNumber {
    /// Returns the number as a database has it.
    pub(crate) fn value(self) -> ValueRef<'static> {
        ValueRef::Int(self.0)
    }
}

/// The range of the keys that were put in a table; `NO_KEYS` if there are none.
#[derive(Clone, Copy)]
struct KeyRange {
    least: u64,
    greatest: u64,
}

const NO_KEYS: KeyRange = KeyRange {
    least: u64::MAX,
    greatest: 0,
};

impl KeyRange {
    /// Returns the range with a further key. Refused if the keys are so far apart that two rows could have the same number.
    fn with(self, key: u64) -> Result<KeyRange, Refused>
        ensures made { IsOk result ↔ (max self.greatest key - min self.least key < 2 ^ 40) }
        ensures range { IfOk result (λ range. range ≡ record { least = min self.least key; greatest = max self.greatest key }) }
    {
        let least = self.least.min(key);
        let greatest = self.greatest.max(key);
        if greatest - least < KEYS {
            Ok(KeyRange { least, greatest })
        } else {
            Err(Refused)
        }
    }

    /// Tells whether a key is in the range.
    fn has(self, key: u64) -> bool
        ensures { IsTrue result ↔ (self.least ≤ key) × (key ≤ self.greatest) }
    {
        self.least <= key && key <= self.greatest
    }
}

/// The range of the keys of each table. Within it no two rows of a table have the same number.
#[derive(Drop)]
pub(crate) struct Keys {
    ranges: [KeyRange; TABLES],
}

impl Keys {
    /// Returns empty ranges for all tables.
    pub(crate) fn new() -> Keys {
        Keys {
            ranges: [NO_KEYS; TABLES],
        }
    }

    /// Adds a key of a table, and returns the number of its row.
    pub(crate) fn add(&mut self, table: u32, key: u64) -> Result<RowNumber, Refused>
        ensures number { IfOk result (λ row. row.0 ≡ pos (row_number table key)) }
        ensures known { OnOk result (HasKey self.new.ranges table key) }
    {
        let place = table as usize;
        if place >= TABLES {
            return Err(Refused);
        }
        self.ranges[place] = self.ranges[place].with(key)?;
        RowNumber::new(table, key)
    }

    /// Returns the number of the row of a table with a key; None if there can be no such row.
    pub(crate) fn row(&self, table: u32, key: u64) -> Result<Option<RowNumber>, Refused>
        ensures made { IsOk result }
        ensures known { IfOk result (λ found. IsTrue (is_some found) ↔ HasKey self.now.ranges table key) }
        ensures number { IfOk result (λ found. IfSome found (λ row. row.0 ≡ pos (row_number table key))) }
    {
        match self.ranges.get(table as usize) {
            Some(range) if range.has(key) => Ok(Some(RowNumber::new(table, key)?)),
            _ => Ok(None),
        }
    }
}
