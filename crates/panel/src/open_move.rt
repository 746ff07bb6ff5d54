// A move that is open: it reads and writes until it is committed or abandoned.
ghost use Rattle.std.specs.Prelude.{◌≡◌};
ghost use Rattle.panel.specs.Moves.{begun, committed, left_by_begin, left_by_commit, UnlessSent};
ghost use Rattle.session.specs.Calls.{begin_call, read_call, after_read, write_call, after_write, commit_call, abandon_call, after_abandon};
ghost use Rattle.session.specs.Steps.{world};

use crate::committed::{Committed, End};
use crate::sent_move::SentMove;
use lines::line::Line;
use messages::parts::Write;
use refusals::Refusal;
use session::place::Place;
use session::ruling::CommitAnswer;
use session::suite_slot::SuiteSlot;
use session::whole::Session;
use settings::kind::Setting;
use std::marker::Model;
use summaries::kind::Summary;

/// A move (a transaction) that is open in its slot. It cannot be let go: it is committed or abandoned.
pub struct OpenMove {
    at: SuiteSlot,
}

impl Model for OpenMove {
    ghost use Rattle.session.specs.declared.suite_slot.SuiteSlot.{SuiteSlot};

    ghost Value = { SuiteSlot };

    ghost view = { λ m. m.at };
}

impl OpenMove {
    /// Opens the slot for a move, and gives the move with its snapshot, which is the suite's stamp.
    pub fn begin<T: Setting, S: Summary, L: Line>(
        session: &mut Session<T, S>,
        places: &[Place<T>],
        writes: &mut [Write<T>],
        line: &mut L,
        suite: usize,
        slot: usize,
    ) -> Result<(OpenMove, u32), Refusal>
        ensures answer { result ≡ begun (record { suite = suite; slot = slot }) (begin_call (world session.old places.now writes.old (L.Line.state line.old)) suite slot) }
        ensures after { world session.new places.now writes.new (L.Line.state line.new) ≡ left_by_begin (world session.old places.now writes.old (L.Line.state line.old)) suite slot }
        ensures same { line.new ≡ line.old }
    {
        let snapshot = session.begin(places, writes, line, suite, slot)?;
        let at = SuiteSlot { suite, slot };
        Ok((OpenMove { at }, snapshot))
    }

    /// Reads a node: the move's own write or, without one, the version at its snapshot.
    pub fn read<T: Setting, S: Summary, L: Line>(
        &self,
        session: &mut Session<T, S>,
        places: &[Place<T>],
        writes: &mut [Write<T>],
        line: &mut L,
        node: u64,
    ) -> Result<T, Refusal>
        ensures answer { result ≡ read_call (world session.old places.now writes.old (L.Line.state line.old)) self.now.suite self.now.slot node }
        ensures after { world session.new places.now writes.new (L.Line.state line.new) ≡ after_read result (world session.old places.now writes.old (L.Line.state line.old)) self.now.suite self.now.slot node }
        ensures same { line.new ≡ line.old }
    {
        let SuiteSlot { suite, slot } = self.at;
        session.read(places, writes, line, suite, slot, node)
    }

    /// Writes a setting for a node; a second write of the node replaces the first.
    pub fn write<T: Setting, S: Summary, L: Line>(
        &self,
        session: &mut Session<T, S>,
        places: &[Place<T>],
        writes: &mut [Write<T>],
        line: &mut L,
        node: u64,
        setting: T,
    ) -> Result<(), Refusal>
        ensures answer { result ≡ write_call (world session.old places.now writes.old (L.Line.state line.old)) self.now.suite self.now.slot node }
        ensures after { world session.new places.now writes.new (L.Line.state line.new) ≡ after_write result (world session.old places.now writes.old (L.Line.state line.old)) self.now.suite self.now.slot node setting }
        ensures same { line.new ≡ line.old }
    {
        let SuiteSlot { suite, slot } = self.at;
        session.write(places, writes, line, suite, slot, node, setting)
    }

    /// Commits: the move has ended with "read" or "clash", or its message is sent; or it is handed back, if that is refused.
    pub fn commit<T: Setting, S: Summary, L: Line>(
        self,
        session: &mut Session<T, S>,
        places: &[Place<T>],
        writes: &mut [Write<T>],
        line: &mut L,
    ) -> Committed
        ensures answer { result ≡ committed self (commit_call S.Summary.kind T.Setting.kind (world session.old places.now writes.old (L.Line.state line.old)) self.suite self.slot) }
        ensures after { world session.new places.now writes.new (L.Line.state line.new) ≡ left_by_commit S.Summary.kind T.Setting.kind (world session.old places.now writes.old (L.Line.state line.old)) self.suite self.slot }
        ensures same { UnlessSent result (line.new ≡ line.old) }
    {
        let OpenMove { at } = self;
        match session.commit(places, writes, line, at.suite, at.slot) {
            Ok(CommitAnswer::Sent) => Committed::Sent(SentMove { at }),
            Ok(CommitAnswer::ReadOnly(snapshot)) => Committed::Ended(End::ReadOnly(snapshot)),
            Ok(CommitAnswer::Clash(node)) => Committed::Ended(End::Clash(node)),
            Err(why) => Committed::Refused(OpenMove { at }, why),
        }
    }

    /// Ends the move with nothing sent. It has ended whatever the session answers.
    pub fn abandon<T: Setting, S: Summary, L: Line>(
        self,
        session: &mut Session<T, S>,
        places: &[Place<T>],
        writes: &mut [Write<T>],
        line: &mut L,
    ) -> Result<(), Refusal>
        ensures answer { result ≡ abandon_call (world session.old places.now writes.old (L.Line.state line.old)) self.suite self.slot }
        ensures after { world session.new places.now writes.new (L.Line.state line.new) ≡ after_abandon result (world session.old places.now writes.old (L.Line.state line.old)) self.suite self.slot }
        ensures same { line.new ≡ line.old }
    {
        let OpenMove { at } = self;
        session.abandon(places, writes, line, at.suite, at.slot)
    }
}
