// The bench between its lines: its line of messages and, once it is made, its session.
#![tactic(auto)]

pub mod bench;
