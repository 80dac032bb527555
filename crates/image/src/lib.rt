// The state image, by the offsets of document 01, and the reading test. Added; the Rust has none.
#![tactic(auto)]

pub mod state;
