// What the event program prints: a line for what an event answers, and the state as a listing.
#![tactic(auto)]

pub mod answer;
pub mod listing;
