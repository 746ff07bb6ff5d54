// The parts of a message.

/// Where a message comes from: a suite (replica), its slot, and the stamp that its move started from.
#[derive(Clone, Copy, PartialEq, Eq, Debug)]
pub struct Origin {
    pub suite: u8,
    pub slot: u8,
    pub snapshot: u32,
}

/// What a message's first ten bytes say, besides its length and version.
#[derive(Clone, Copy, PartialEq, Eq, Debug)]
pub struct Header {
    pub origin: Origin,
    pub writes: u8,
}

/// One write: a node and its new setting.
#[derive(Clone, Copy, PartialEq, Eq, Debug)]
pub struct Write<T> {
    pub node: u64,
    pub setting: T,
}
