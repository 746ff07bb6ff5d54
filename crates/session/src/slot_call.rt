// The calls at a slot as values, and what they answer.

use crate::ruling::{CommitAnswer, Outcome};

/// A call at a slot.
#[derive(Clone, Copy)]
pub(crate) enum SlotCall<T> {
    Begin,
    Read(u64),
    Write(u64, T),
    Commit,
    Abandon,
    Collect,
}

/// What an accepted call at a slot answers.
#[derive(Clone, Copy)]
pub(crate) enum SlotAnswer<T> {
    Began(u32),
    Setting(T),
    Written,
    Committed(CommitAnswer),
    Abandoned,
    Collected(Outcome),
}
