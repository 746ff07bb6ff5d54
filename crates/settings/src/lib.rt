// Kinds of setting: what a node can hold, and its form in a message.
#![tactic(auto)]

pub mod colour;
pub mod colours;
pub mod kind;
pub mod link;
pub mod links;
