// What the fields of a VALUE write: three signed numbers, or `none` or a node's number.
use settings::colour::Colour;
use settings::link::{Link, NodeNumber};
use texts::{number, signed};

/// What a VALUE is read as.
pub(crate) trait Value: Sized {
    /// What the fields write, if they are a VALUE.
    fn parse(fields: &[&[u8]]) -> Option<Self>;
}

/// A VALUE of either kind, where there is no session to judge it.
#[derive(Clone, Copy)]
pub(crate) struct EitherKind;

impl Value for Colour {
    fn parse(fields: &[&[u8]]) -> Option<Colour> {
        let [lift, gamma, gain] = fields else {
            return None;
        };
        Some(Colour {
            lift: signed(lift)?,
            gamma: signed(gamma)?,
            gain: signed(gain)?,
        })
    }
}

impl Value for Link {
    fn parse(fields: &[&[u8]]) -> Option<Link> {
        match fields {
            [b"none"] => Some(Link(None)),
            [digits] => Some(Link(Some(NodeNumber {
                number: number(digits)?,
            }))),
            _ => None,
        }
    }
}

impl Value for EitherKind {
    fn parse(fields: &[&[u8]]) -> Option<EitherKind> {
        (Colour::parse(fields).is_some() || Link::parse(fields).is_some()).then_some(EitherKind)
    }
}
