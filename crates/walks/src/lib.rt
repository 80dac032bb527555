// The walk over the links of a table down to all descendants. state.rs.
// It reads slot by slot, goes from mark to mark, and ends on every table.
#![tactic(auto)]

pub mod descendants;
