// What the bench prints for a line.
ghost use Rattle.std.specs.Prelude.{◌≡◌, Some};
ghost use Rattle.bench_lines.specs.declared.reply.Reply.{Reply};
ghost use Rattle.bench_lines.specs.Replies.{IsReply, reply_of, outcome_reply, reply_text};

use history::call::Answer;
use refusals::Refusal;
use session::ruling::{CommitAnswer, Outcome, Ruling};
use settings::colour::Colour;
use std::fmt;

/// The one line that the bench prints for each line that it reads.
#[derive(Clone, Copy, PartialEq, Eq, Debug)]
pub enum Reply {
    /// It is done.
    Okay,
    /// A move has begun at this snapshot.
    Snapshot(u32),
    /// The node's setting.
    Set(Colour),
    /// The move is sent.
    Sent,
    /// The move only read, and this was its snapshot.
    ReadOnly(u32),
    /// The move is committed under this stamp.
    Done(u32),
    /// The node at which the move clashes.
    Clash(u64),
    /// The call is refused.
    No(Refusal),
    /// The line cannot be read, or asks for what cannot be asked for now.
    Bad,
}

impl fmt::Display for Reply {
    ghost output = { λ reply. Some (reply_text reply) };

    fn fmt<W: fmt::Write>(&self, f: &mut fmt::Formatter<W>) -> fmt::Result {
        match self {
            Reply::Okay => f.write_str("ok"),
            Reply::Snapshot(snapshot) => write!(f, "ok {snapshot}"),
            Reply::Set(colour) => write!(f, "set {colour}"),
            Reply::Sent => f.write_str("sent"),
            Reply::ReadOnly(snapshot) => write!(f, "read {snapshot}"),
            Reply::Done(stamp) => write!(f, "done {stamp}"),
            Reply::Clash(node) => write!(f, "clash {node}"),
            Reply::No(refusal) => write!(f, "no {}", refusal.number()),
            Reply::Bad => f.write_str("bad"),
        }
    }
}

/// The reply to a call of the session, or `None` where a take rules a message void.
pub fn reply_to(answer: Result<Answer<Colour>, Refusal>) -> Option<Reply>
    ensures { result ≡ reply_of answer }
{
    let reply = match answer {
        Err(refusal) => Reply::No(refusal),
        Ok(Answer::Began(snapshot)) => Reply::Snapshot(snapshot),
        Ok(Answer::Setting(colour)) => Reply::Set(colour),
        Ok(Answer::Written | Answer::Abandoned | Answer::Settled) => Reply::Okay,
        Ok(Answer::Committed(CommitAnswer::Sent)) => Reply::Sent,
        Ok(Answer::Committed(CommitAnswer::ReadOnly(snapshot))) => Reply::ReadOnly(snapshot),
        Ok(Answer::Committed(CommitAnswer::Clash(node))) => Reply::Clash(node),
        Ok(Answer::Collected(outcome)) => outcome_reply(outcome),
        Ok(Answer::Taken(Ruling::Decided(outcome))) => outcome_reply(outcome),
        Ok(Answer::Taken(Ruling::Void(_))) => return None,
    };
    Some(reply)
}

/// The reply to a suite's decision on a move.
fn outcome_reply(outcome: Outcome) -> Reply
    ensures { result ≡ outcome_reply outcome }
{
    match outcome {
        Outcome::Clash(node) => Reply::Clash(node),
        Outcome::Commit(stamp) => Reply::Done(stamp),
    }
}

/// No two replies print as the same text.
pub fn replies_differ()
    ensures { (a b : Reply) → IsReply a → IsReply b → reply_text a ≡ reply_text b → a ≡ b }
{}
