//! The limits of a schema that its facts need.

/// The most tables of a schema, and the most columns of a table.
pub const MAX_ITEMS: usize = 64;

/// The most bytes to which a part of a template is padded.
pub const MAX_WIDTH: i64 = 64;
