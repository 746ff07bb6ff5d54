// The session tool: runs a script of calls on sessions of any kinds, and prints each answer.
#![tactic(auto)]

mod command;
mod kinds;
mod reply;
mod script;
mod value;

use script::Script;
use std::io;

fn run(rt: &HostRuntime) -> io::Result<()> {
    let mut script = Script::new(rt)?;
    let mut next = script.run_without()?;
    // the input ends it
    for _ in 0..u64::MAX {
        let Some(making) = next else {
            break;
        };
        next = script.make(making)?;
    }
    Ok(())
}

fn main(rt: HostRuntime) -> anyhow::Result<()> {
    Ok(run(&rt)?)
}
