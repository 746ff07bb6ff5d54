// The message of a move: its layout, composing it, and reading it with the faults a reader finds.
#![tactic(auto)]

pub mod compose;
pub mod fault;
mod layout;
pub mod parts;
pub mod read;
