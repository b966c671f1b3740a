//! A store of SQLite into which units are played: two tables, of rows and of the references between them.
//!
//! Every foreign key holds after each put and each drop. So a row is put after the rows to which it refers, and dropped after the rows that
//! refer to it. All statements from a `start` to the next `finish` are one transaction: a run that breaks off leaves no row.
//!
//! No clause says what a database holds: the store tells neither its rows nor its name.
#![tactic(auto)]

mod databases;
mod inserts;
mod keeper;
mod mode;
mod numbers;
mod prepared;
mod refused;
mod site;
mod system;
mod tables;
mod waiting;
mod writer;

pub use databases::{Databases, MemoryDatabases, MemoryTables, RowTables};
pub use keeper::SqlKeeper;
pub use refused::Refused;
pub use system::{SystemDatabases, SystemTables};
