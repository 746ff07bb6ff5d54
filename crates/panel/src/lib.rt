// Moves as values that must be spent: a move that is open or sent cannot be let go, used after its end, or ended twice.
#![tactic(auto)]

pub mod committed;
pub mod open_move;
pub mod sent_move;
