// A move that is sent: it ends when its ruling is collected, or when it is noted down for later.
ghost use Rattle.std.specs.Prelude.{◌≡◌};
ghost use Rattle.panel.specs.Moves.{handed_back, left_by_collect};
ghost use Rattle.session.specs.Calls.{collect_call};
ghost use Rattle.session.specs.Steps.{world};

use lines::line::Line;
use messages::parts::Write;
use refusals::Refusal;
use session::place::Place;
use session::ruling::Outcome;
use session::suite_slot::SuiteSlot;
use session::whole::Session;
use settings::kind::Setting;
use std::marker::Model;
use summaries::kind::Summary;

/// A move whose message was offered to the line. It cannot be let go: it is collected or noted.
pub struct SentMove {
    pub(crate) at: SuiteSlot,
}

impl Model for SentMove {
    ghost use Rattle.session.specs.declared.suite_slot.SuiteSlot.{SuiteSlot};

    ghost Value = { SuiteSlot };

    ghost view = { λ m. m.at };
}

impl SentMove {
    /// Gives the ruling on the move, which ends; or hands the move back, if that is refused.
    pub fn collect<T: Setting, S: Summary, L: Line>(
        self,
        session: &mut Session<T, S>,
        places: &[Place<T>],
        writes: &mut [Write<T>],
        line: &mut L,
    ) -> Result<Outcome, (SentMove, Refusal)>
        ensures answer { result ≡ handed_back self (collect_call (world session.old places.now writes.old (L.Line.state line.old)) self.suite self.slot) }
        ensures after { world session.new places.now writes.new (L.Line.state line.new) ≡ left_by_collect (world session.old places.now writes.old (L.Line.state line.old)) self.suite self.slot }
        ensures same { line.new ≡ line.old }
    {
        let SentMove { at } = self;
        session
            .collect(places, writes, line, at.suite, at.slot)
            .map_err(|why| (SentMove { at }, why))
    }

    /// Gives the move's suite and slot in its place. The slot is left as it is.
    pub fn note(self) -> SuiteSlot
        ensures { result ≡ self }
    {
        let SentMove { at: noted } = self;
        noted
    }
}
