// A slot of a suite: the room for one move (a transaction).
ghost use Rattle.std.specs.Prelude.{◌≡◌, ◌*◌, ◌≤◌, length};
ghost use Rattle.limits.specs.Limits.{slots_each, most_writes};

use crate::open_move::Move;
use crate::place::Place;
use crate::ruling::{CommitAnswer, Outcome};
use crate::slot_call::{SlotAnswer, SlotCall};
use crate::view::View;
use lines::line::Line;
use messages::parts::Write;
use refusals::Refusal;
use settings::kind::Setting;
use summaries::kind::Summary;

/// A slot, by what can be done in it next.
#[derive(Drop)]
pub(crate) enum Slot {
    /// A move can begin.
    Idle,
    /// The move reads, writes, commits or is abandoned.
    Open(Move),
    /// The move's message is offered, and the suite has not ruled on it.
    Sent,
    /// The suite has ruled on it; the outcome can be collected.
    Ruled(Outcome),
}

impl Slot {
    ghost use Rattle.session.specs.Choosing.{sees_place};
    ghost use Rattle.session.specs.Slotted.{slot_state};
    ghost use Rattle.session.specs.Takes.{ruled_if_sent};
    ghost use Rattle.session.specs.States.{after};
    ghost use Rattle.session.specs.Steps.{seen, step_in, slot_after, writes_after, line_after, UnlessStepSent, NeverTooLong};

    /// One call. A call that the state does not allow is refused, and a refused call changes nothing.
    pub(crate) fn step<T: Setting, S: Summary, L: Line>(
        &mut self,
        call: SlotCall<T>,
        view: &View<'_, T>,
        writes: &mut [Write<T>],
        line: &mut L,
    ) -> Result<SlotAnswer<T>, Refusal>
        requires { length writes.old ≡ slots_each * most_writes }
        ensures answer { result ≡ step_in S.Summary.kind T.Setting.kind view.now.nodes.now (seen view.now writes.old (L.Line.state line.old)) view.now.suite view.now.slot call (slot_state self.old) }
        ensures slot { slot_state self.new ≡ after result (λ a. slot_after (seen view.now writes.old (L.Line.state line.old)) view.now.slot call a (slot_state self.old)) (slot_state self.old) }
        ensures writes { writes.new ≡ after result (λ _. writes_after (seen view.now writes.old (L.Line.state line.old)) view.now.slot call (slot_state self.old)) writes.old }
        ensures line { L.Line.state line.new ≡ after result (λ a. line_after S.Summary.kind T.Setting.kind (seen view.now writes.old (L.Line.state line.old)) view.now.suite view.now.slot a (slot_state self.old)) (L.Line.state line.old) }
        ensures same { UnlessStepSent result (line.new ≡ line.old) }
        ensures fits { NeverTooLong call result }
    {
        match (&mut *self, call) {
            (Slot::Idle, SlotCall::Begin) => {
                *self = Slot::Open(Move::new(view.stamp));
                Ok(SlotAnswer::Began(view.stamp))
            }
            (Slot::Open(moving), SlotCall::Read(node)) => {
                Ok(SlotAnswer::Setting(moving.read(view, writes, node)?))
            }
            (Slot::Open(moving), SlotCall::Write(node, setting)) => {
                moving.write(view, writes, node, setting)?;
                Ok(SlotAnswer::Written)
            }
            (Slot::Open(moving), SlotCall::Commit) => {
                let answer = moving.commit::<T, S, L>(view, writes, line)?;
                *self = match answer {
                    CommitAnswer::Sent => Slot::Sent,
                    CommitAnswer::ReadOnly(_) | CommitAnswer::Clash(_) => Slot::Idle,
                };
                Ok(SlotAnswer::Committed(answer))
            }
            (Slot::Open(_), SlotCall::Abandon) => {
                *self = Slot::Idle;
                Ok(SlotAnswer::Abandoned)
            }
            (Slot::Ruled(outcome), SlotCall::Collect) => {
                let outcome = *outcome;
                *self = Slot::Idle;
                Ok(SlotAnswer::Collected(outcome))
            }
            (Slot::Sent, SlotCall::Collect) => Err(Refusal::NotRuled),
            _ => Err(Refusal::SlotState),
        }
    }

    /// Whether its move is open and sees the place at index j of a node's.
    pub(crate) fn sees<T: Copy>(&self, versions: &[Place<T>], j: usize) -> bool
        ensures { result ≡ sees_place versions.now j (slot_state self.now) }
    {
        match self {
            Slot::Open(moving) => moving.sees(versions, j),
            Slot::Idle | Slot::Sent | Slot::Ruled(_) => false,
        }
    }

    /// Its move's message was ruled so: if it is sent, it has the outcome.
    pub(crate) fn rule(&mut self, outcome: Outcome)
        ensures { slot_state self.new ≡ ruled_if_sent outcome (slot_state self.old) }
    {
        if let Slot::Sent = self {
            *self = Slot::Ruled(outcome);
        }
    }
}
