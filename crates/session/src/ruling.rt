// What becomes of a move: what its commit answers, and how suites rule on its message.

use messages::fault::Fault;

/// What a suite decides on a message without a fault.
#[derive(Clone, Copy, PartialEq, Eq, Debug)]
pub enum Outcome {
    /// The node, which the summary names, was committed after the snapshot.
    Clash(u64),
    /// The move is committed under this stamp.
    Commit(u32),
}

/// A suite's ruling (its certification) on a message.
#[derive(Clone, Copy, PartialEq, Eq, Debug)]
pub enum Ruling {
    /// The message has this fault. It counts as taken, and nothing else comes of it.
    Void(Fault),
    /// The message has no fault.
    Decided(Outcome),
}

/// What an accepted commit answers.
#[derive(Clone, Copy, PartialEq, Eq, Debug)]
pub enum CommitAnswer {
    /// The move's message is offered to the line.
    Sent,
    /// The move wrote nothing; this was its snapshot.
    ReadOnly(u32),
    /// The node, which the move read, was committed after the snapshot; nothing is offered.
    Clash(u64),
}
