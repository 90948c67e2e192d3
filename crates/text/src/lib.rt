// The text of the event program: fields, numbers and addresses read, and text put into a lent buffer. Slices only.
#![tactic(auto)]

pub mod address;
mod hex;
pub mod number;
pub mod print;
pub mod scan;
