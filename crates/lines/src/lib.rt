// The lines of the event program's input: the header lines and the events. Slices only.
#![tactic(auto)]

pub mod event;
pub mod header;
