// Why a call was refused. A refused call changes nothing.
#![tactic(auto)]

ghost use Rattle.std.specs.Prelude.{◌≡◌};
ghost use Rattle.refusals.specs.Numbers.{refusal_number};

/// The causes, in the order in which a call checks them, each with its number.
#[derive(Clone, Copy, PartialEq, Eq, Debug)]
pub enum Refusal {
    /// A session of no suite, or of more than 8.
    SuiteCount = 1,
    /// A session of no node, or of more than 64.
    NodeCount = 2,
    /// A session with one node number twice.
    RepeatedNode = 3,
    /// Handed memory of another size than the session's, or a line with no place or more than 4,096.
    MemorySize = 4,
    /// A suite or a slot that is not there.
    NoSuchSlot = 5,
    /// The slot's state does not allow the call.
    SlotState = 6,
    /// A node that is not in the session.
    UnknownNode = 7,
    /// One more node than a move may read (32) or write (16).
    MoveFull = 8,
    /// No kept version of the node is at or under the snapshot: foreign memory.
    NoVersion = 9,
    /// The line holds as many messages as it has places.
    LineFull = 10,
    /// No message waits to be settled.
    NothingWaiting = 11,
    /// The suite has taken every agreed message.
    AllTaken = 12,
    /// The slot's move is sent and not ruled on yet.
    NotRuled = 13,
    /// An offered message is empty or longer than 1,162 bytes.
    MessageLength = 14,
    /// A fetch of no agreed message, or into too short a buffer.
    NoSuchMessage = 15,
    /// More than 32 numbers for a summary, or a region that is not as long as the summary.
    SummarySize = 16,
}

impl Refusal {
    /// The number by which documents and programs name the cause.
    pub fn number(self) -> u8
        ensures { result ≡ refusal_number self }
    {
        self as u8
    }
}
