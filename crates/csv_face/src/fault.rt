//! Why CSV isn't read.

/// Why bytes aren't rows as CSV.
#[derive(Clone, Copy, Debug, PartialEq, Eq)]
pub enum CsvFault {
    /// The first bad record: it has a wrong number of fields, or a field that begins with only one backslash and isn't `\N`. Where names
    /// stand first, record 1 is bad if it isn't these names. `number` is the record's number, from 1.
    BadRecord { number: u64 },
    /// Memory ran out.
    Memory,
}
