// A kept version of a node.

/// A place: a setting, and the stamp of the commit that left it. A node has five at each suite.
#[derive(Clone, Copy, PartialEq, Eq, Debug)]
pub struct Place<T> {
    pub stamp: u32,
    pub setting: T,
}
