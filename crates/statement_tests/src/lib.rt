//! Tests of `sql_lines`: rows and changes as statements of SQL.
#![tactic(auto)]

#[cfg(test)]
mod statements;
