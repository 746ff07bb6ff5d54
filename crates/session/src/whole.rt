// The session as a whole: its nodes and its suites, how it is made, and what its calls check before anything else.
ghost use Rattle.std.specs.Prelude.{◌≡◌, ◌+◌, ◌-◌, ◌*◌, ◌≤◌, if◌then◌else◌, Ok, Err};
ghost use Rattle.limits.specs.Limits.{most_suites, most_nodes, places_each};
ghost use Rattle.session.specs.Shares.{check_suite, check_slot};
ghost use Rattle.refusals.specs.declared.Refusal.TheVariants.{MemorySize};
ghost use Rattle.session.specs.States.{unfit, unfit_sizes};
ghost use Rattle.number_bytes.specs.Bytes.{Number};
ghost use Rattle.session.specs.Making.{make_answer};
ghost use Rattle.std.specs.List.{AllByRecursion};
ghost use Rattle.session.specs.Calls.{after_make};
ghost use Rattle.session.specs.Steps.{world};

use crate::making::{fill, kept_nodes, new_suites, repeated};
use crate::place::Place;
use crate::suite::Suite;
use arrayvec::ArrayVec;
use limits::{NODES, PLACES, SLOTS, SUITES, WRITES, outside};
use lines::line::Line;
use messages::parts::Write;
use refusals::Refusal;
use settings::kind::Setting;
use std::marker::{Model, PhantomData};
use std::ops::Range;
use summaries::kind::Summary;

/// A session of one kind of setting and one kind of summary. The settings that it keeps, and the writes of its open moves, are
/// in memory that it is handed with each call.
#[derive(Drop)]
pub struct Session<T, S> {
    pub(crate) nodes: ArrayVec<u64, NODES>,
    pub(crate) suites: ArrayVec<Suite, SUITES>,
    kinds: PhantomData<(T, S)>,
}

impl<T, S> Model for Session<T, S> {
    ghost use Rattle.session.specs.Shapes.{Shape};
    ghost use Rattle.session.specs.States.{SessionState};

    ghost Value = { SessionState };

    ghost view = { λ s. record { nodes = s.nodes.items; suites = s.suites.items } };

    ghost invariant = { λ s. Shape s.nodes.items s.suites.items };
}

/// Refuses memories of another size than so many suites and nodes need, and a line that cannot be used.
fn check_memory<L: Line>(
    suites: usize,
    nodes: usize,
    places: usize,
    writes: usize,
    line: &L,
) -> Result<(), Refusal>
    requires suites { suites ≤ most_suites }
    requires nodes { nodes ≤ most_nodes }
    ensures { result ≡ if unfit_sizes suites nodes places writes (L.Line.state line.now).limit then Err MemorySize else Ok tt }
{
    if places != suites * nodes * PLACES || writes != suites * (SLOTS * WRITES) {
        return Err(Refusal::MemorySize);
    }
    line.count()?;
    Ok(())
}

/// Which part of a memory is a suite's, if each suite has so much of it.
pub(crate) fn part_of(suite: usize, each: usize) -> Range<usize>
    requires low { 1 ≤ suite }
    requires high { suite ≤ most_suites }
    requires small { each ≤ most_nodes * places_each }
    ensures start { result.start ≡ (suite - 1) * each }
    ensures end { result.end ≡ (suite - 1) * each + each }
{
    let start = (suite - 1) * each;
    start..start + each
}

impl<T: Setting, S: Summary> Session<T, S> {
    /// A session of so many suites with these nodes. Its setting places are filled with the starting setting, under stamp 0.
    pub fn new<L: Line>(
        suites: usize,
        nodes: &[u64],
        places: &mut [Place<T>],
        writes: &[Write<T>],
        line: &L,
    ) -> Result<Self, Refusal>
        ensures answer { result ≡ make_answer suites nodes.now places.old writes.now (L.Line.state line.now) }
        ensures places { places.new ≡ after_make T.Setting.kind result suites nodes.now places.old }
        ensures numbers { AllByRecursion Number nodes.now }
    {
        if outside(suites, SUITES) {
            return Err(Refusal::SuiteCount);
        }
        if outside(nodes.len(), NODES) {
            return Err(Refusal::NodeCount);
        }
        if repeated(nodes) {
            return Err(Refusal::RepeatedNode);
        }
        check_memory(suites, nodes.len(), places.len(), writes.len(), line)?;
        let first = Place {
            stamp: 0,
            setting: T::starting(),
        };
        fill(places, first);
        Ok(Session {
            nodes: kept_nodes(nodes),
            suites: new_suites(suites),
            kinds: PhantomData,
        })
    }

    /// Refuses memories of another size than the session's, and a line that cannot be used.
    pub(crate) fn check_sizes<L: Line>(
        &self,
        places: &[Place<T>],
        writes: &[Write<T>],
        line: &L,
    ) -> Result<(), Refusal>
        ensures { result ≡ if unfit (world self.now places.now writes.now (L.Line.state line.now)) then Err MemorySize else Ok tt }
    {
        check_memory(
            self.suites.len(),
            self.nodes.len(),
            places.len(),
            writes.len(),
            line,
        )
    }

    /// Refuses a call at a suite that is not there, or in memory of another size.
    pub(crate) fn check_suite<L: Line>(
        &self,
        places: &[Place<T>],
        writes: &[Write<T>],
        line: &L,
        suite: usize,
    ) -> Result<(), Refusal>
        ensures { result ≡ check_suite (world self.now places.now writes.now (L.Line.state line.now)) suite }
    {
        self.check_sizes(places, writes, line)?;
        if outside(suite, self.suites.len()) {
            return Err(Refusal::NoSuchSlot);
        }
        Ok(())
    }

    /// Refuses a call at a slot of a suite that is not there, or in memory of another size.
    pub(crate) fn check_slot<L: Line>(
        &self,
        places: &[Place<T>],
        writes: &[Write<T>],
        line: &L,
        suite: usize,
        slot: usize,
    ) -> Result<(), Refusal>
        ensures { result ≡ check_slot (world self.now places.now writes.now (L.Line.state line.now)) suite slot }
    {
        self.check_sizes(places, writes, line)?;
        if outside(suite, self.suites.len()) || outside(slot, SLOTS) {
            return Err(Refusal::NoSuchSlot);
        }
        Ok(())
    }
}
