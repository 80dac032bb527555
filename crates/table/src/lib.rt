// The context table of the DPE, by value: its type, the bits that it supports, and the flags of the commands. state.rs and support.rs.
#![tactic(auto)]

pub mod flags;
pub mod state;
pub mod support;
