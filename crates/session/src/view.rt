// What a call at a slot sees beside the slot.
ghost use Rattle.std.specs.Prelude.{◌≡◌, ◌*◌, ◌≤◌, length};
ghost use Rattle.limits.specs.Limits.{most_suites, slots_each, places_each};
ghost use Rattle.session.specs.Slots.{first_write};

use crate::place::Place;
use limits::WRITES;

/// What a call at a slot sees of its suite and session, and does not change.
#[derive(Drop)]
pub(crate) struct View<'a, T> {
    pub suite: usize,
    pub slot: usize,
    pub stamp: u32,
    pub nodes: &'a [u64],
    // the suite's own part of the setting places
    pub places: &'a [Place<T>],
    ghost suite_low: { 1 ≤ suite },
    ghost suite_high: { suite ≤ most_suites },
    ghost slot_low: { 1 ≤ slot },
    ghost slot_high: { slot ≤ slots_each },
    ghost whole: { length places.now ≡ length nodes.now * places_each },
}

impl<T> View<'_, T> {
    /// Where the write places of the slot begin in its suite's part.
    pub fn first_write(&self) -> usize
        ensures { result ≡ first_write self.now.slot }
    {
        (self.slot - 1) * WRITES
    }
}
