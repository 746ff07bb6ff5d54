// Places over handed bytes, each with a message and a link. The links, read one after the other, are the order of the places:
// the link in place i says which place comes i-th. These are functions on the bytes, and not a store's, as they break on the
// way what always holds of a store.
ghost use Rattle.std.specs.Prelude.{◌≡◌, ◌+◌, ◌*◌, ◌<◌, ◌≤◌, slice_index};
ghost use Rattle.limits.specs.Limits.{line_place};
ghost use Rattle.lines.specs.Offers.{as_offered};
ghost use Rattle.lines.specs.Places.{cell, places_in, places_used, link_at, offered_at, order, exchange, brought, ChangedAt, Reordered};

use crate::cell::{link_of, put_link, put_message};
use crate::offer::Offer;
use limits::LINE_PLACE;
use std::ops::Range;

/// How many whole places there are.
pub(crate) fn count(bytes: &[u8]) -> usize
    ensures { result ≡ places_in bytes.now }
{
    bytes.len() / LINE_PLACE
}

// Where the bytes of a place stand.
fn extent(bytes: &[u8], place: usize) -> Range<usize>
    requires { place < places_in bytes.now }
    ensures start { result.start ≡ line_place * place }
    ensures end { result.end ≡ line_place * place + line_place }
{
    let start = LINE_PLACE * place;
    start..start + LINE_PLACE
}

/// The bytes of a place.
#[tactic(auto, unfolding(crate::specs::Places::cell))]
pub(crate) fn cell(bytes: &[u8], place: usize) -> &[u8; LINE_PLACE]
    requires { place < places_in bytes.now }
    ensures { result.now ≡ cell bytes.now place }
{
    bytes[extent(bytes, place)].as_array().unwrap()
}

/// The place that comes i-th in the order.
pub(crate) fn place(bytes: &[u8], i: usize) -> u16
    requires { i < places_used bytes.now }
    ensures { result ≡ slice_index (order bytes.now) i }
{
    link_of(cell(bytes, i))
}

/// Puts another link into a place.
pub(crate) fn set_link(bytes: &mut [u8], place: usize, link: u16)
    requires { place < places_in bytes.old }
    ensures changed { ChangedAt bytes.old bytes.new place }
    ensures link { link_at bytes.new place ≡ link }
    ensures message { offered_at bytes.new place ≡ offered_at bytes.old place }
{
    let extent = extent(bytes, place);
    put_link(&mut bytes[extent], link);
}

/// Puts another message into a place.
pub(crate) fn set_message(bytes: &mut [u8], place: usize, offer: Offer)
    requires { place < places_in bytes.old }
    ensures changed { ChangedAt bytes.old bytes.new place }
    ensures link { link_at bytes.new place ≡ link_at bytes.old place }
    ensures message { offered_at bytes.new place ≡ as_offered offer.entry }
{
    let extent = extent(bytes, place);
    put_message(&mut bytes[extent], offer);
}

// Swaps two neighbours in the order.
fn swap(bytes: &mut [u8], i: usize)
    requires { i + 1 < places_used bytes.old }
    ensures { Reordered bytes.old bytes.new (exchange i (order bytes.old)) }
{
    let first = place(bytes, i);
    let second = place(bytes, i + 1);
    set_link(bytes, i, second);
    set_link(bytes, i + 1, first);
}

/// Brings what stands at `from` in the order forward to `to`.
pub(crate) fn bring(bytes: &mut [u8], from: usize, to: usize)
    requires from_bound { from < places_used bytes.old }
    requires to_le_from { to ≤ from }
    ensures { Reordered bytes.old bytes.new (brought 0 to from (order bytes.old)) }
{
    for i in (to..from).rev() {
        swap(bytes, i);
    }
}
