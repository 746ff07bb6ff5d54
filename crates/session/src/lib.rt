// A session: the types of what it holds and answers, and its calls. The rules of the calls are definitions, in specs/.
#![tactic(auto)]

mod line_calls;
mod making;
mod open_move;
pub mod place;
pub mod rules;
pub mod ruling;
mod search;
mod slot;
mod slot_call;
mod slot_calls;
mod suite;
pub mod suite_slot;
mod taking;
mod view;
pub mod whole;
