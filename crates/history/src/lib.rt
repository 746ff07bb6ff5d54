// Histories of a session: its calls and their answers as values. What holds of every history is a law, in specs/Laws.antt.
#![tactic(auto)]

pub mod call;
pub mod law;
pub mod perform;
pub mod run;
