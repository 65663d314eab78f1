//! Whole runs of steps on bags, and the joins of two bags, collected. Users name it by `hashbag::script`.
#![tactic(auto)]

pub mod script;
