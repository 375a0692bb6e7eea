// The calls for Rattle callers. The crate inarumpit_c exports them to C.
#![tactic(auto)]

pub mod calls;
