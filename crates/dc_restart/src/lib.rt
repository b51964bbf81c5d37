//! Drills, in which a core may lose its kernel between two entries: their records, and in `specs` their texts.
#![tactic(auto)]

pub mod drills;
