// What a commit makes of an open move.

use crate::open_move::OpenMove;
use crate::sent_move::SentMove;
use refusals::Refusal;

/// How a move ends whose message is not sent.
#[derive(Clone, Copy, PartialEq, Eq, Debug)]
pub enum End {
    /// The move wrote nothing; this was its snapshot.
    ReadOnly(u32),
    /// The node, which the move read, was committed after the snapshot.
    Clash(u64),
}

/// What a commit makes of an open move.
pub enum Committed {
    /// Its message is offered to the line, and the ruling on it is to be collected.
    Sent(SentMove),
    /// It has ended.
    Ended(End),
    /// It is open still: the commit was refused.
    Refused(OpenMove, Refusal),
}
