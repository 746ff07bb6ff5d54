// A move (a transaction) that is open: it reads, it writes, and it commits.
ghost use Rattle.std.specs.Prelude.{◌≡◌, ◌≢◌, Err, ◌==◌, ◌*◌, ◌≤◌, [], length, take};
ghost use Rattle.std.specs.List.{position_or_len};
ghost use Rattle.limits.specs.Limits.{slots_each, most_writes, longest_message};
ghost use Rattle.lines.specs.Lines.{empty_line};
ghost use Rattle.refusals.specs.declared.Refusal.TheVariants.{MessageLength};
ghost use Rattle.session.specs.Commits.{commit_in, move_message, UnlessSent};
ghost use Rattle.session.specs.Slots.{own, own_writes, read_in, read_into, write_in};
ghost use Rattle.session.specs.States.{after};
ghost use Rattle.session.specs.Takes.{is_at};
ghost use Rattle.session.specs.Versions.{visible};
ghost use Rattle.session.specs.Steps.{seen, wrote, writes_after, line_after};
ghost use Rattle.session.specs.declared.slot_call.SlotAnswer.TheVariants.{Committed};
ghost use Rattle.session.specs.declared.slot_call.SlotCall.TheVariants.{Write as Writing};

use crate::place::Place;
use crate::ruling::CommitAnswer;
use crate::search::{best, first_newer, is_known, versions_of};
use crate::view::View;
use arrayvec::ArrayVec;
use limits::{MESSAGE, READS, WRITES};
use lines::line::Line;
use messages::compose::compose;
use messages::parts::{Origin, Write};
use refusals::Refusal;
use settings::kind::Setting;
use summaries::kind::Summary;

/// A move that is open. Its writes are in the write places of its slot, one after the other from the first on.
#[derive(Drop)]
pub(crate) struct Move {
    // the stamp that its suite had when it began
    snapshot: u32,
    // the nodes that it has read, in order of first read, but for those that it had written before
    reads: ArrayVec<u64, READS>,
    // how many nodes it has written
    writes: usize,
    ghost few: { writes ≤ most_writes },
}

// The setting that was written for the node, if one was.
fn own<T: Copy>(writes: &[Write<T>], node: u64) -> Option<T>
    ensures { result ≡ own writes.now node }
{
    writes
        .iter()
        .find(|write| write.node == node)
        .map(|write| write.setting)
}

// Which of the writes has the node or, where none has, which would be the next.
fn place_for<T>(writes: &[Write<T>], node: u64) -> usize
    ensures { result ≡ position_or_len (λ w. w.node == node) writes.now }
{
    writes.iter().take_while(|write| write.node != node).count()
}

impl Move {
    ghost use Rattle.session.specs.Slotted.{opened_by};

    /// A move that has read and written nothing.
    pub(crate) fn new(snapshot: u32) -> Move
        ensures snapshot { result.snapshot ≡ snapshot }
        ensures reads { result.reads.items ≡ [] }
        ensures writes { result.writes ≡ 0 }
    {
        Move {
            snapshot,
            reads: ArrayVec::<u64, READS>::new(),
            writes: 0,
        }
    }

    // The move's own writes, in its suite's write places.
    fn writes_in<'a, T>(&self, view: &View<'_, T>, writes: &'a [Write<T>]) -> &'a [Write<T>]
        requires { length writes.now ≡ slots_each * most_writes }
        ensures { result.now ≡ own_writes (seen view.now writes.now (empty_line 0)) view.now.slot self.now.writes }
    {
        let first = view.first_write();
        &writes[first..first + self.writes]
    }

    /// Reads a node.
    pub(crate) fn read<T: Copy>(
        &mut self,
        view: &View<'_, T>,
        writes: &[Write<T>],
        node: u64,
    ) -> Result<T, Refusal>
        requires { length writes.now ≡ slots_each * most_writes }
        ensures answer { result ≡ read_in view.now.nodes.now (seen view.now writes.now (empty_line 0)) view.now.slot node (opened_by self.old) }
        ensures slot { opened_by self.new ≡ after result (λ _. read_into (seen view.now writes.now (empty_line 0)) view.now.slot node (opened_by self.old)) (opened_by self.old) }
    {
        if !is_known(view.nodes, node) {
            return Err(Refusal::UnknownNode);
        }
        if let Some(setting) = own(self.writes_in(view, writes), node) {
            return Ok(setting);
        }
        let is_new = !is_known(self.reads.as_slice(), node);
        if is_new && self.reads.is_full() {
            return Err(Refusal::MoveFull);
        }
        let versions = versions_of(view.nodes, view.places, node);
        let Some((_, place)) = best(Some(self.snapshot), versions) else {
            return Err(Refusal::NoVersion);
        };
        if is_new {
            self.reads.push(node);
        }
        Ok(place.setting)
    }

    /// Writes a setting for a node.
    pub(crate) fn write<T: Copy>(
        &mut self,
        view: &View<'_, T>,
        writes: &mut [Write<T>],
        node: u64,
        setting: T,
    ) -> Result<(), Refusal>
        requires { length writes.old ≡ slots_each * most_writes }
        ensures answer { result ≡ write_in view.now.nodes.now (seen view.now writes.old (empty_line 0)) view.now.slot node (opened_by self.old) }
        ensures slot { opened_by self.new ≡ after result (λ _. wrote (seen view.now writes.old (empty_line 0)) view.now.slot node (opened_by self.old)) (opened_by self.old) }
        ensures writes { writes.new ≡ after result (λ _. writes_after (seen view.now writes.old (empty_line 0)) view.now.slot (Writing node setting) (opened_by self.old)) writes.old }
    {
        if !is_known(view.nodes, node) {
            return Err(Refusal::UnknownNode);
        }
        let at = place_for(self.writes_in(view, writes), node);
        if at >= WRITES {
            return Err(Refusal::MoveFull);
        }
        writes[view.first_write() + at] = Write { node, setting };
        self.writes = self.writes.max(at + 1);
        Ok(())
    }

    // Writes the move's message over the front of the buffer, and gives its length.
    fn compose<T: Setting, S: Summary>(
        &self,
        view: &View<'_, T>,
        writes: &[Write<T>],
        buffer: &mut [u8],
    ) -> usize
        requires size { length writes.now ≡ slots_each * most_writes }
        requires some { 1 ≤ self.now.writes }
        requires room { length buffer.old ≡ longest_message }
        ensures bound { result ≤ length buffer.new }
        ensures message { take result buffer.new ≡ move_message S.Summary.kind T.Setting.kind view.now.suite view.now.slot self.now.snapshot self.now.reads.items (own_writes (seen view.now writes.now (empty_line 0)) view.now.slot self.now.writes) }
    {
        let from = Origin {
            suite: view.suite as u8,
            slot: view.slot as u8,
            snapshot: self.snapshot,
        };
        let own = self.writes_in(view, writes);
        compose::<T, S>(from, self.reads.as_slice(), own, buffer).unwrap()
    }

    /// Commits: gives "read" or "clash", or offers the message.
    pub(crate) fn commit<T: Setting, S: Summary, L: Line>(
        &self,
        view: &View<'_, T>,
        writes: &[Write<T>],
        line: &mut L,
    ) -> Result<CommitAnswer, Refusal>
        requires { length writes.now ≡ slots_each * most_writes }
        ensures answer { result ≡ commit_in S.Summary.kind T.Setting.kind view.now.nodes.now (seen view.now writes.now (L.Line.state line.old)) view.now.suite view.now.slot (opened_by self.now) }
        ensures line { L.Line.state line.new ≡ after result (λ a. line_after S.Summary.kind T.Setting.kind (seen view.now writes.now (L.Line.state line.old)) view.now.suite view.now.slot (Committed a) (opened_by self.now)) (L.Line.state line.old) }
        ensures same { UnlessSent result (line.new ≡ line.old) }
        ensures fits { result ≢ Err MessageLength }
    {
        if self.writes == 0 {
            return Ok(CommitAnswer::ReadOnly(self.snapshot));
        }
        let newer = first_newer(
            view.nodes,
            view.places,
            self.snapshot,
            self.reads.as_slice(),
        );
        if let Some(node) = newer {
            return Ok(CommitAnswer::Clash(node));
        }
        let mut buffer = [0; MESSAGE];
        let length = self.compose::<T, S>(view, writes, &mut buffer);
        line.offer(view.suite, &buffer[..length])?;
        Ok(CommitAnswer::Sent)
    }

    /// Whether it sees the place at index j of a node's.
    pub(crate) fn sees<T: Copy>(&self, versions: &[Place<T>], j: usize) -> bool
        ensures { result ≡ is_at j (visible self.now.snapshot versions.now) }
    {
        match best(Some(self.snapshot), versions) {
            Some((i, _)) => i == j,
            None => false,
        }
    }
}
