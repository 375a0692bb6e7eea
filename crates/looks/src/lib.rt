// The looks of a scan: where they end.
#![tactic(auto)]

pub mod walk;
