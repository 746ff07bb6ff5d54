#![tactic(auto)]

mod cell;
pub mod first_come;
pub mod line;
mod offer;
mod places;
pub mod store;
mod suite;
pub mod turn;
