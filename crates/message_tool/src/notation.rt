// Settings as text: three signed numbers, or `none` or a node number.
use settings::colour::Colour;
use settings::kind::Setting;
use settings::link::{Link, NodeNumber};
use std::fmt::Display;
use texts::{number, signed};

/// A setting that prints as the words that write it.
pub(crate) trait Notation: Setting + Display {
    /// The setting that the words write.
    fn parse(words: &[&[u8]]) -> Option<Self>;
}

impl Notation for Colour {
    fn parse(words: &[&[u8]]) -> Option<Colour> {
        let [lift, gamma, gain] = words else {
            return None;
        };
        Some(Colour {
            lift: signed(lift)?,
            gamma: signed(gamma)?,
            gain: signed(gain)?,
        })
    }
}

impl Notation for Link {
    fn parse(words: &[&[u8]]) -> Option<Link> {
        match words {
            [b"none"] => Some(Link(None)),
            [digits] => Some(Link(Some(NodeNumber {
                number: number(digits)?,
            }))),
            _ => None,
        }
    }
}
