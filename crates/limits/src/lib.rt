// The limits of a session, in one place. The longest message follows from the others:
// a header of 10 bytes, the widest summary, and 16 writes of a node number and the widest setting.
#![tactic(auto)]

ghost use Rattle.std.specs.Prelude.{◌≡◌};
ghost use Rattle.limits.specs.Limits.{the_limits, the_line_limits, outside};

/// Suites (replicas) in a session.
pub const SUITES: usize = 8;

/// Nodes (versioned boxes) in a session.
pub const NODES: usize = 64;

/// Places (kept versions) of one node at one suite: one more than slots, so that one is always spare.
pub const PLACES: usize = 5;

/// Slots of one suite, which is how many moves (transactions) it may have at a time.
pub const SLOTS: usize = 4;

/// Nodes that one move may read.
pub const READS: usize = 32;

/// Nodes that one move may write.
pub const WRITES: usize = 16;

/// Bytes of a setting's form.
pub const SETTING_WIDTH: usize = 32;

/// Bytes of a read summary.
pub const SUMMARY_WIDTH: usize = 512;

/// Bytes of a message's header: length, version, suite, slot, write count, snapshot.
pub const HEADER: usize = 10;

/// Bytes of a node number.
pub const NODE_WIDTH: usize = 8;

/// Bytes of the longest message.
pub const MESSAGE: usize = HEADER + SUMMARY_WIDTH + WRITES * (NODE_WIDTH + SETTING_WIDTH);

/// Messages that a line (an atomic broadcast) may hold.
pub const LINE_PLACES: usize = 4096;

/// Bytes of a line's own in each of its places: length, suite, a spare one, link.
pub const LINE_HEADER: usize = 6;

/// Bytes of a line's place: its own, and room for the longest message.
pub const LINE_PLACE: usize = LINE_HEADER + MESSAGE;

/// The limits of a session and its messages as one value.
#[derive(Clone, Copy, PartialEq, Eq, Debug)]
pub struct Limits {
    pub suites: usize,
    pub nodes: usize,
    pub places: usize,
    pub slots: usize,
    pub reads: usize,
    pub writes: usize,
    pub setting_width: usize,
    pub summary_width: usize,
    pub header: usize,
    pub node_width: usize,
    pub message: usize,
}

/// The constants of a session and its messages, which are the numbers that the definitions name.
pub fn in_force() -> Limits
    ensures { result ≡ the_limits }
{
    Limits {
        suites: SUITES,
        nodes: NODES,
        places: PLACES,
        slots: SLOTS,
        reads: READS,
        writes: WRITES,
        setting_width: SETTING_WIDTH,
        summary_width: SUMMARY_WIDTH,
        header: HEADER,
        node_width: NODE_WIDTH,
        message: MESSAGE,
    }
}

/// The limits of a line as one value.
#[derive(Clone, Copy, PartialEq, Eq, Debug)]
pub struct LineLimits {
    pub places: usize,
    pub header: usize,
    pub place: usize,
}

/// The constants of a line, which are the numbers that the definitions name.
pub fn lines_in_force() -> LineLimits
    ensures { result ≡ the_line_limits }
{
    LineLimits {
        places: LINE_PLACES,
        header: LINE_HEADER,
        place: LINE_PLACE,
    }
}

/// Whether a number is not 1 to `most`.
pub fn outside(n: usize, most: usize) -> bool
    ensures { result ≡ outside most n }
{
    !(1..=most).contains(&n)
}
