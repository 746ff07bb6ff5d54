// One call of a session, with the law of every history that leads to it.
ghost use Rattle.std.specs.Prelude.{◌≡◌};
ghost use Rattle.history.specs.Performing.{Performed, UnlessMoved};
ghost use Rattle.history.specs.Runs.{answer};
ghost use Rattle.session.specs.Steps.{world};

use crate::call::{Answer, Call};
use lines::line::Line;
use messages::parts::Write;
use refusals::Refusal;
use session::place::Place;
use session::whole::Session;
use settings::kind::Setting;
use summaries::kind::Summary;

/// Makes one call.
pub fn perform<T: Setting, S: Summary, L: Line>(
    session: &mut Session<T, S>,
    places: &mut [Place<T>],
    writes: &mut [Write<T>],
    line: &mut L,
    call: Call<T>,
) -> Result<Answer<T>, Refusal>
    ensures answer { result ≡ answer S.Summary.kind T.Setting.kind (world session.old places.old writes.old (L.Line.state line.old)) call }
    ensures law { Performed S.Summary.kind T.Setting.kind call result (world session.old places.old writes.old (L.Line.state line.old)) (world session.new places.new writes.new (L.Line.state line.new)) }
    ensures same { UnlessMoved result (line.new ≡ line.old) }
{
    match call {
        Call::Begin(at) => {
            let snapshot = session.begin(places, writes, line, at.suite, at.slot)?;
            Ok(Answer::Began(snapshot))
        }
        Call::Read(at, node) => {
            let setting = session.read(places, writes, line, at.suite, at.slot, node)?;
            Ok(Answer::Setting(setting))
        }
        Call::Write(at, node, setting) => {
            session.write(places, writes, line, at.suite, at.slot, node, setting)?;
            Ok(Answer::Written)
        }
        Call::Commit(at) => {
            let answer = session.commit(places, writes, line, at.suite, at.slot)?;
            Ok(Answer::Committed(answer))
        }
        Call::Abandon(at) => {
            session.abandon(places, writes, line, at.suite, at.slot)?;
            Ok(Answer::Abandoned)
        }
        Call::Collect(at) => {
            let outcome = session.collect(places, writes, line, at.suite, at.slot)?;
            Ok(Answer::Collected(outcome))
        }
        Call::Settle => {
            session.settle(places, writes, line)?;
            Ok(Answer::Settled)
        }
        Call::Take(suite) => {
            let ruling = session.take(places, writes, line, suite)?;
            Ok(Answer::Taken(ruling))
        }
    }
}
