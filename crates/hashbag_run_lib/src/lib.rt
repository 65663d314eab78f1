//! The program `hashbag_run` without its `main`: it reads a step in each line, and writes the replies, the joins and the trees.
#![tactic(auto)]

pub mod answer;
mod answers;
pub mod execute;
pub mod joined;
mod lines;
mod output;
mod verbs;
