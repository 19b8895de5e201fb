// The limits of document 01, section "Job bytes", as constants for the crates that hold state in tables.
#![tactic(auto)]

pub const MAX_SLOTS: usize = 3;

pub const MAX_NODES: usize = 24;

pub const MAX_COLUMNS: usize = 4;

pub const MAX_SPLITS: usize = 16;

pub const MAX_RUNS: usize = 16;
