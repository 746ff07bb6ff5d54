// The calls of a session at a slot. Each is handed the setting places, the write places and the line, and lends the suite that
// it names that suite's own part of both memories.
ghost use Rattle.std.specs.Prelude.{◌≡◌, ◌≢◌, Err};
ghost use Rattle.session.specs.Shares.{check_slot};
ghost use Rattle.session.specs.Calls.{begin_call, after_begin, read_call, after_read, write_call, after_write, commit_call, after_commit, abandon_call, after_abandon, collect_call, after_collect};
ghost use Rattle.session.specs.Steps.{world, at_slot_answer, at_slot_leaves, UnlessStepSent, NeverTooLong};
ghost use Rattle.session.specs.Commits.{UnlessSent};
ghost use Rattle.refusals.specs.declared.Refusal.TheVariants.{MessageLength};

use crate::place::Place;
use crate::ruling::{CommitAnswer, Outcome};
use crate::slot_call::{SlotAnswer, SlotCall};
use crate::suite::Seat;
use crate::whole::{Session, part_of};
use limits::{PLACES, SLOTS, WRITES};
use lines::line::Line;
use messages::parts::Write;
use refusals::Refusal;
use settings::kind::Setting;
use summaries::kind::Summary;

impl<T: Setting, S: Summary> Session<T, S> {
    // A call at a slot, on the suite's own part of both memories.
    fn at_slot<L: Line>(
        &mut self,
        places: &[Place<T>],
        writes: &mut [Write<T>],
        line: &mut L,
        suite: usize,
        slot: usize,
        call: SlotCall<T>,
    ) -> Result<SlotAnswer<T>, Refusal>
        ensures answer { result ≡ at_slot_answer S.Summary.kind T.Setting.kind (world self.old places.now writes.old (L.Line.state line.old)) suite slot call }
        ensures after { world self.new places.now writes.new (L.Line.state line.new)
            ≡ at_slot_leaves S.Summary.kind T.Setting.kind result (world self.old places.now writes.old (L.Line.state line.old)) suite slot call }
        ensures same { UnlessStepSent result (line.new ≡ line.old) }
        ensures fits { NeverTooLong call result }
    {
        self.check_slot(places, writes, line, suite, slot)?;
        let seat = Seat {
            suite,
            nodes: self.nodes.as_slice(),
        };
        let its_places = part_of(suite, self.nodes.len() * PLACES);
        let its_writes = part_of(suite, SLOTS * WRITES);
        self.suites[suite - 1].step::<T, S, L>(
            seat,
            slot,
            call,
            &places[its_places],
            &mut writes[its_writes],
            line,
        )
    }

    /// Opens the slot for a move (a transaction), and gives its snapshot, which is the suite's stamp.
    pub fn begin<L: Line>(
        &mut self,
        places: &[Place<T>],
        writes: &mut [Write<T>],
        line: &mut L,
        suite: usize,
        slot: usize,
    ) -> Result<u32, Refusal>
        ensures answer { result ≡ begin_call (world self.old places.now writes.old (L.Line.state line.old)) suite slot }
        ensures after { world self.new places.now writes.new (L.Line.state line.new) ≡ after_begin result (world self.old places.now writes.old (L.Line.state line.old)) suite slot }
        ensures same { line.new ≡ line.old }
    {
        let call = SlotCall::Begin;
        let SlotAnswer::Began(snapshot) = self.at_slot(places, writes, line, suite, slot, call)?
        else {
            unreachable!()
        };
        Ok(snapshot)
    }

    /// Reads a node in the slot's move: the move's own write or, without one, the version at its snapshot.
    pub fn read<L: Line>(
        &mut self,
        places: &[Place<T>],
        writes: &mut [Write<T>],
        line: &mut L,
        suite: usize,
        slot: usize,
        node: u64,
    ) -> Result<T, Refusal>
        ensures answer { result ≡ read_call (world self.old places.now writes.old (L.Line.state line.old)) suite slot node }
        ensures after { world self.new places.now writes.new (L.Line.state line.new) ≡ after_read result (world self.old places.now writes.old (L.Line.state line.old)) suite slot node }
        ensures same { line.new ≡ line.old }
    {
        let call = SlotCall::Read(node);
        let SlotAnswer::Setting(setting) = self.at_slot(places, writes, line, suite, slot, call)?
        else {
            unreachable!()
        };
        Ok(setting)
    }

    /// Writes a setting for a node in the slot's move; a second write of the node replaces the first.
    pub fn write<L: Line>(
        &mut self,
        places: &[Place<T>],
        writes: &mut [Write<T>],
        line: &mut L,
        suite: usize,
        slot: usize,
        node: u64,
        setting: T,
    ) -> Result<(), Refusal>
        ensures answer { result ≡ write_call (world self.old places.now writes.old (L.Line.state line.old)) suite slot node }
        ensures after { world self.new places.now writes.new (L.Line.state line.new) ≡ after_write result (world self.old places.now writes.old (L.Line.state line.old)) suite slot node setting }
        ensures same { line.new ≡ line.old }
    {
        let call = SlotCall::Write(node, setting);
        let SlotAnswer::Written = self.at_slot(places, writes, line, suite, slot, call)? else {
            unreachable!()
        };
        Ok(())
    }

    /// Commits the slot's move: gives "read" or "clash", or offers its message to the line.
    pub fn commit<L: Line>(
        &mut self,
        places: &[Place<T>],
        writes: &mut [Write<T>],
        line: &mut L,
        suite: usize,
        slot: usize,
    ) -> Result<CommitAnswer, Refusal>
        ensures answer { result ≡ commit_call S.Summary.kind T.Setting.kind (world self.old places.now writes.old (L.Line.state line.old)) suite slot }
        ensures after { world self.new places.now writes.new (L.Line.state line.new) ≡ after_commit S.Summary.kind T.Setting.kind result (world self.old places.now writes.old (L.Line.state line.old)) suite slot }
        ensures same { UnlessSent result (line.new ≡ line.old) }
        ensures fits { result ≢ Err MessageLength }
    {
        let call = SlotCall::Commit;
        let SlotAnswer::Committed(answer) = self.at_slot(places, writes, line, suite, slot, call)?
        else {
            unreachable!()
        };
        Ok(answer)
    }

    /// Ends the slot's move with nothing sent.
    pub fn abandon<L: Line>(
        &mut self,
        places: &[Place<T>],
        writes: &mut [Write<T>],
        line: &mut L,
        suite: usize,
        slot: usize,
    ) -> Result<(), Refusal>
        ensures answer { result ≡ abandon_call (world self.old places.now writes.old (L.Line.state line.old)) suite slot }
        ensures after { world self.new places.now writes.new (L.Line.state line.new) ≡ after_abandon result (world self.old places.now writes.old (L.Line.state line.old)) suite slot }
        ensures same { line.new ≡ line.old }
    {
        let call = SlotCall::Abandon;
        let SlotAnswer::Abandoned = self.at_slot(places, writes, line, suite, slot, call)? else {
            unreachable!()
        };
        Ok(())
    }

    /// Gives the ruling on the slot's move, and makes the slot idle.
    pub fn collect<L: Line>(
        &mut self,
        places: &[Place<T>],
        writes: &mut [Write<T>],
        line: &mut L,
        suite: usize,
        slot: usize,
    ) -> Result<Outcome, Refusal>
        ensures answer { result ≡ collect_call (world self.old places.now writes.old (L.Line.state line.old)) suite slot }
        ensures after { world self.new places.now writes.new (L.Line.state line.new) ≡ after_collect result (world self.old places.now writes.old (L.Line.state line.old)) suite slot }
        ensures same { line.new ≡ line.old }
    {
        let call = SlotCall::Collect;
        let SlotAnswer::Collected(outcome) = self.at_slot(places, writes, line, suite, slot, call)?
        else {
            unreachable!()
        };
        Ok(outcome)
    }
}
