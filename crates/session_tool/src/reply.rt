// What is printed of an answer.
use history::call::Answer;
use refusals::Refusal;
use session::ruling::{CommitAnswer, Outcome, Ruling};
use std::fmt::Display;
use std::io;

/// Prints the answer to a call, or its refusal.
pub(crate) fn show<T: Display + Drop>(
    rt: &HostRuntime,
    answer: Result<Answer<T>, Refusal>,
) -> io::Result<()> {
    match answer {
        Ok(Answer::Began(snapshot)) => println!(rt; "ok {snapshot}"),
        Ok(Answer::Setting(setting)) => println!(rt; "set {setting}"),
        Ok(Answer::Written | Answer::Abandoned | Answer::Settled) => println!(rt; "ok"),
        Ok(Answer::Committed(CommitAnswer::Sent)) => println!(rt; "sent"),
        Ok(Answer::Committed(CommitAnswer::ReadOnly(snapshot))) => println!(rt; "read {snapshot}"),
        Ok(Answer::Committed(CommitAnswer::Clash(node))) => println!(rt; "clash {node}"),
        Ok(Answer::Collected(outcome) | Answer::Taken(Ruling::Decided(outcome))) => {
            show_outcome(rt, outcome)
        }
        Ok(Answer::Taken(Ruling::Void(_))) => println!(rt; "void"),
        Err(refusal) => println!(rt; "no {}", refusal.number()),
    }
}

fn show_outcome(rt: &HostRuntime, outcome: Outcome) -> io::Result<()> {
    match outcome {
        Outcome::Clash(node) => println!(rt; "clash {node}"),
        Outcome::Commit(stamp) => println!(rt; "done {stamp}"),
    }
}
