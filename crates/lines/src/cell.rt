// The bytes of one place: the message's length (2 bytes), its suite, a spare byte, a link (2 bytes), the message.
ghost use Rattle.std.specs.Prelude.{◌≡◌, ◌≤◌, length};
ghost use Rattle.limits.specs.Limits.{line_place};
ghost use Rattle.lines.specs.Offers.{as_offered};
ghost use Rattle.lines.specs.Places.{link_in, offered_in};

use crate::offer::Offer;
use limits::{LINE_HEADER, LINE_PLACE, MESSAGE};

/// The link.
pub(crate) fn link_of(cell: &[u8; LINE_PLACE]) -> u16
    ensures { result ≡ link_in cell.now }
{
    u16::from_be_bytes([cell[4], cell[5]])
}

/// The suite of the message.
#[tactic(auto, unfolding(crate::specs::Places::offered_in))]
pub(crate) fn suite_of(cell: &[u8; LINE_PLACE]) -> u8
    ensures { result ≡ (offered_in cell.now).suite }
{
    cell[2]
}

/// The message.
pub(crate) fn message_of(cell: &[u8; LINE_PLACE]) -> &[u8]
    ensures { result.now ≡ (offered_in cell.now).message }
{
    let length = usize::from(u16::from_be_bytes([cell[0], cell[1]])).min(MESSAGE);
    &cell[LINE_HEADER..LINE_HEADER + length]
}

// The two below take slices: where a part of the places is lent as an array, a proof does not learn what was written.

/// Puts another link, and leaves the message.
pub(crate) fn put_link(cell: &mut [u8], link: u16)
    requires { length cell.old ≡ line_place }
    ensures link { link_in cell.new ≡ link }
    ensures message { offered_in cell.new ≡ offered_in cell.old }
{
    cell[4..6].copy_from_slice(&link.to_be_bytes());
}

/// Puts another message, and leaves the link.
pub(crate) fn put_message(cell: &mut [u8], offer: Offer)
    requires { length cell.old ≡ line_place }
    ensures link { link_in cell.new ≡ link_in cell.old }
    ensures message { offered_in cell.new ≡ as_offered offer.entry }
{
    let message = offer.message;
    cell[0..2].copy_from_slice(&(message.len() as u16).to_be_bytes());
    cell[2] = offer.suite.number as u8;
    cell[LINE_HEADER..LINE_HEADER + message.len()].copy_from_slice(message);
}
