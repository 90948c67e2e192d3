// Where the event program's lines come from, and where its output goes.
#![tactic(auto)]

pub mod reader;
pub mod sink;
