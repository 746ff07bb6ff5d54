// The lines of the bench: what each asks for, and what is printed for it.
#![tactic(auto)]

mod calls;
pub mod command;
mod fields;
pub mod reply;
#[cfg(test)]
mod tests;
