//! Tests of the rules of schemas, and of the plan of an accepted one. `read_tests` has those of what is read.
#![tactic(auto)]

#[cfg(test)]
mod cases;
#[cfg(test)]
mod column_rules;
#[cfg(test)]
mod columns_of_others;
#[cfg(test)]
mod plans;
#[cfg(test)]
mod ready_columns;
#[cfg(test)]
mod reference_rules;
#[cfg(test)]
mod table_rules;
#[cfg(test)]
mod word_list_rules;
