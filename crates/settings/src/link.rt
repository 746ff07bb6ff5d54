// A link: a node number, or none.
ghost use Rattle.std.specs.Prelude.{◌^◌, ◌<◌};

use std::fmt;

/// The number of a node.
#[derive(Clone, Copy, PartialEq, Eq, Debug)]
pub struct NodeNumber {
    pub number: u64,
    ghost fits: { number < 2 ^ 64 },
}

/// The node that is linked to, if there is one.
#[derive(Clone, Copy, PartialEq, Eq, Debug)]
pub struct Link(pub Option<NodeNumber>);

/// `none`, or the node's number in decimal digits.
impl fmt::Display for Link {
    ghost use Rattle.std.specs.Prelude.{Some};
    ghost use Rattle.settings.specs.Words.{link_words};

    ghost output = { λ l. Some (link_words l) };

    fn fmt<W: fmt::Write>(&self, f: &mut fmt::Formatter<W>) -> fmt::Result {
        match self.0 {
            None => f.write_str("none"),
            Some(node) => write!(f, "{}", node.number),
        }
    }
}
