// Read summaries: the nodes that a move read, packed into the bytes of its message.
#![tactic(auto)]

pub mod bloom;
pub mod exact_list;
pub mod kind;
pub mod murmur2;
