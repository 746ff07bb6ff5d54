// A whole script of calls on a session, from its making on, with the law of the history that it is.
ghost use Rattle.std.specs.Prelude.{◌≡◌, IfOk, OnErr};
ghost use Rattle.history.specs.Performing.{RanOrRefused, Ran};
ghost use Rattle.session.specs.Making.{make_answer};
ghost use Rattle.session.specs.Steps.{world};

use crate::call::{Answer, Call};
use crate::perform::perform;
use lines::line::Line;
use messages::parts::Write;
use refusals::Refusal;
use session::place::Place;
use session::whole::Session;
use settings::kind::Setting;
use summaries::kind::Summary;

/// A call of a script, and its answer once it is made.
#[derive(Clone, Copy, PartialEq, Eq, Debug)]
pub struct Exchange<T> {
    pub call: Call<T>,
    pub answer: Option<Result<Answer<T>, Refusal>>,
}

/// Makes a session and then all calls of the script, one after the other; each gets its answer. Where the session is refused,
/// no call is made.
pub fn run<T: Setting, S: Summary, L: Line>(
    suites: usize,
    nodes: &[u64],
    places: &mut [Place<T>],
    writes: &mut [Write<T>],
    line: &mut L,
    script: &mut [Exchange<T>],
) -> Result<Session<T, S>, Refusal>
    ensures answer { RanOrRefused result (make_answer suites nodes.now places.old writes.old (L.Line.state line.old)) }
    ensures law { IfOk result (λ session. Ran S.Summary.kind T.Setting.kind suites nodes.now places.old writes.old (L.Line.state line.old) script.old script.new (world session places.new writes.new (L.Line.state line.new))) }
    ensures places { OnErr result (places.new ≡ places.old) }
    ensures writes { OnErr result (writes.new ≡ writes.old) }
    ensures line { OnErr result (line.new ≡ line.old) }
    ensures script { OnErr result (script.new ≡ script.old) }
{
    let mut session = Session::<T, S>::new(suites, nodes, places, writes, line)?;
    for i in 0..script.len() {
        let answer = perform(&mut session, places, writes, line, script[i].call);
        script[i].answer = Some(answer);
    }
    Ok(session)
}
