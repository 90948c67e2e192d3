// What the other crates share of the wire: addresses, and the refusals of document 01.
#![tactic(auto)]

pub mod error;
pub mod ethernet;
pub mod ipv6;
