// The line tool: runs a script of calls on a line, and prints each answer.
#![tactic(auto)]

mod calls;
mod command;
mod script;

use script::Script;
use std::io;

fn run(rt: &HostRuntime) -> io::Result<()> {
    let mut script = Script::new(rt)?;
    let mut next = script.run(|_| println!(rt; "error: no line yet"))?;
    // the input ends it
    for _ in 0..u64::MAX {
        let Some(making) = next else {
            break;
        };
        next = script.make(making)?;
    }
    Ok(())
}

fn main(rt: HostRuntime) -> anyhow::Result<()> {
    Ok(run(&rt)?)
}
