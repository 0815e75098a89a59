//! Rows of three numbers, kept in columns, and the rows that a question or a filter asks for, found by comparing many
//! rows at once with the vectors of `std::simd`.
//!
//! A row stands for a key of a policy: the numbers of its client, its user and its privilege, where 0 is the wildcard.
#![tactic(auto)]

mod columns;
mod tests_of_rows;

pub use columns::Columns;
