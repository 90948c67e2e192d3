// The event program: what each line says, and what each event makes of the state and prints.
#![tactic(auto)]

pub mod card;
mod neighbors;
mod printed;
pub mod reading;
