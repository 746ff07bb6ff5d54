// A suite (a replica) of a session.
ghost use Rattle.std.specs.Prelude.{◌≡◌, ◌+◌, ◌*◌, ◌<◌, ◌≤◌, [], false, length};
ghost use Rattle.limits.specs.Limits.{most_suites, most_writes, places_each, slots_each};
ghost use Rattle.lines.specs.Lines.{empty_line, unusable};
ghost use Rattle.messages.specs.Reading.{header_in};
ghost use Rattle.session.specs.Choosing.{spare_of, Placeable};
ghost use Rattle.session.specs.Steps.{UnlessStepSent, NeverTooLong};
ghost use Rattle.session.specs.Takes.{decided_stamp, with_outcome, decided_places, take_answer, take_leaves};

use crate::place::Place;
use crate::ruling::{Outcome, Ruling};
use crate::slot::Slot;
use crate::slot_call::{SlotAnswer, SlotCall};
use crate::taking::{fetch_next, judge, place_writes};
use crate::view::View;
use limits::{MESSAGE, SLOTS};
use lines::line::Line;
use messages::parts::{Header, Write};
use refusals::Refusal;
use settings::kind::Setting;
use std::marker::Model;
use summaries::kind::Summary;

/// A suite: its stamp, which counts the commits that it has applied, how many messages it has taken, and its slots.
#[derive(Drop)]
pub(crate) struct Suite {
    stamp: u32,
    taken: usize,
    slots: [Slot; SLOTS],
}

impl Model for Suite {
    ghost use Rattle.std.specs.Prelude.{◌≡◌, ◌≤◌, length, map};
    ghost use Rattle.limits.specs.Limits.{slots_each};
    ghost use Rattle.session.specs.Slotted.{slot_state};
    ghost use Rattle.session.specs.States.{SuiteState};

    ghost Value = { SuiteState };

    ghost view = { λ s. record { stamp = s.stamp; taken = s.taken; slots = map slot_state s.slots } };

    // each commit was a message taken; and there are four slots
    ghost invariant = { λ s. (s.stamp ≤ s.taken) × (length s.slots ≡ slots_each) };
}

impl Default for Suite {
    ghost use Rattle.session.specs.Making.{new_suite};

    ghost is_default = { λ suite. suite ≡ new_suite };

    /// A suite at first.
    fn default() -> Suite {
        Suite {
            stamp: 0,
            taken: 0,
            slots: [Slot::Idle, Slot::Idle, Slot::Idle, Slot::Idle],
        }
    }
}

/// Where a suite stands in its session: its number, and the session's nodes.
#[derive(Clone, Copy)]
pub(crate) struct Seat<'a> {
    pub suite: usize,
    pub nodes: &'a [u64],
}

impl Suite {
    ghost use Rattle.session.specs.Steps.{step_answer, step_leaves, share_with};
    ghost use Rattle.session.specs.States.{after};

    /// A call at a slot, on the suite's own part of both memories.
    pub(crate) fn step<T: Setting, S: Summary, L: Line>(
        &mut self,
        seat: Seat<'_>,
        slot: usize,
        call: SlotCall<T>,
        places: &[Place<T>],
        writes: &mut [Write<T>],
        line: &mut L,
    ) -> Result<SlotAnswer<T>, Refusal>
        requires suite { (1 ≤ seat.suite) × (seat.suite ≤ most_suites) }
        requires slot { (1 ≤ slot) × (slot ≤ slots_each) }
        requires places { length places.now ≡ length seat.nodes.now * places_each }
        requires writes { length writes.old ≡ slots_each * most_writes }
        ensures answer { result ≡ step_answer S.Summary.kind T.Setting.kind seat.entry.nodes.now seat.entry.suite slot call (share_with self.old places.now writes.old (L.Line.state line.old)) }
        ensures share { share_with self.new places.now writes.new (L.Line.state line.new)
            ≡ after result (λ a. step_leaves S.Summary.kind T.Setting.kind seat.entry.suite slot call a (share_with self.old places.now writes.old (L.Line.state line.old)))
            (share_with self.old places.now writes.old (L.Line.state line.old)) }
        ensures same { UnlessStepSent result (line.new ≡ line.old) }
        ensures fits { NeverTooLong call result }
    {
        let view = View {
            suite: seat.suite,
            slot,
            stamp: self.stamp,
            nodes: seat.nodes,
            places,
        };
        let slots = &mut self.slots;
        let slot = &mut slots[slot - 1];
        slot.step::<T, S, L>(call, &view, writes, line)
    }

    // If a message of its own was ruled so, the message's slot has the outcome, if it was sent.
    fn rule_own_slot(&mut self, number: usize, header: Header, outcome: Outcome)
        requires slot { (1 ≤ header.origin.slot) × (header.origin.slot ≤ slots_each) }
        ensures stamp { self.new.stamp ≡ self.old.stamp }
        ensures taken { self.new.taken ≡ self.old.taken }
        ensures slots { self.new.slots ≡ with_outcome number header.origin.suite header.origin.slot outcome self.old.slots }
    {
        if usize::from(header.origin.suite) == number {
            let slots = &mut self.slots;
            let slot = &mut slots[usize::from(header.origin.slot) - 1];
            slot.rule(outcome);
        }
    }

    // Applies what it decided on a message, apart from the count of messages taken and the message's own slot.
    fn apply<T: Setting, S: Summary>(
        &mut self,
        nodes: &[u64],
        message: &[u8],
        header: Header,
        outcome: Outcome,
        places: &mut [Place<T>],
    )
        requires counted { decided_stamp outcome self.old.stamp ≤ self.old.taken }
        requires header { header ≡ header_in message.now }
        requires fine { Placeable S.Summary.kind T.Setting.kind nodes.now message.now }
        requires places { length places.old ≡ length nodes.now * places_each }
        ensures suite { self.new ≡ record self.old { stamp = decided_stamp outcome self.old.stamp } }
        ensures places { places.new ≡ decided_places S.Summary.kind T.Setting.kind outcome nodes.now (spare_of nodes.now (share_with self.old places.old [] (empty_line 0))) message.now places.old }
    {
        if let Outcome::Commit(stamp) = outcome {
            let count = usize::from(header.writes);
            place_writes::<T, S>(message, count, stamp, &self.slots, nodes, places);
            self.stamp = stamp;
        }
    }

    /// Rules on the next agreed message, in a session of so many suites.
    pub(crate) fn take<T: Setting, S: Summary, L: Line>(
        &mut self,
        seat: Seat<'_>,
        suites: usize,
        places: &mut [Place<T>],
        line: &L,
    ) -> Result<Ruling, Refusal>
        requires places { length places.old ≡ length seat.nodes.now * places_each }
        requires line { unusable (L.Line.state line.now).limit ≡ false }
        ensures few { length self.old.slots ≤ slots_each }
        ensures answer { result ≡ take_answer S.Summary.kind T.Setting.kind suites seat.entry.nodes.now (share_with self.old places.old [] (L.Line.state line.now)) }
        ensures share { share_with self.new places.new [] (L.Line.state line.now)
            ≡ after result (λ ruling. take_leaves S.Summary.kind T.Setting.kind seat.entry.nodes.now seat.entry.suite (spare_of seat.entry.nodes.now (share_with self.old places.old [] (L.Line.state line.now))) ruling (share_with self.old places.old [] (L.Line.state line.now)))
            (share_with self.old places.old [] (L.Line.state line.now)) }
    {
        let mut buffer = [0; MESSAGE];
        let length = fetch_next(line, self.taken, &mut buffer)?;
        let message = &buffer[..length];
        let judged = judge::<T, S>(message, suites, self.stamp, seat.nodes, places);
        self.taken += 1;
        match judged {
            Ok((header, outcome)) => {
                self.apply::<T, S>(seat.nodes, message, header, outcome, places);
                self.rule_own_slot(seat.suite, header, outcome);
                Ok(Ruling::Decided(outcome))
            }
            Err(fault) => Ok(Ruling::Void(fault)),
        }
    }
}
