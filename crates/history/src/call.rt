// The calls of a session as values, and their answers.

use session::ruling::{CommitAnswer, Outcome, Ruling};
use session::suite_slot::SuiteSlot;

/// A call of a session.
#[derive(Clone, Copy, PartialEq, Eq, Debug)]
pub enum Call<T> {
    /// Opens the slot.
    Begin(SuiteSlot),
    /// Reads a node in the slot's move.
    Read(SuiteSlot, u64),
    /// Writes a setting for a node there.
    Write(SuiteSlot, u64, T),
    /// Commits the move.
    Commit(SuiteSlot),
    /// Ends the move with nothing sent.
    Abandon(SuiteSlot),
    /// Gets the ruling on the move, and ends it.
    Collect(SuiteSlot),
    /// Has the line agree a message.
    Settle,
    /// Has the suite rule on the next agreed message.
    Take(usize),
}

/// What an accepted call answers.
#[derive(Clone, Copy, PartialEq, Eq, Debug)]
pub enum Answer<T> {
    /// A begin: the snapshot.
    Began(u32),
    /// A read: the node's setting.
    Setting(T),
    /// A write.
    Written,
    /// A commit.
    Committed(CommitAnswer),
    /// An abandon.
    Abandoned,
    /// A collect: how the suite ruled on the move's message.
    Collected(Outcome),
    /// A settle.
    Settled,
    /// A take: how the suite ruled on the message.
    Taken(Ruling),
}
