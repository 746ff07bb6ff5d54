// The message tool: reads lines, and answers each.
#![tactic(auto)]

mod command;
mod draft;
mod notation;
mod session;
mod stop;
mod tool;

use command::{SettingKind, SummaryKind};
use settings::colour::Colour;
use settings::link::Link;
use std::io;
use std::io::{BufReader, Read};
use summaries::bloom::Bloom;
use summaries::exact_list::ExactList;
use tool::Tool;

fn run(rt: &HostRuntime) -> anyhow::Result<()> {
    // once the input has ended, it is not asked again
    let mut input = BufReader::new(rt.alloc(), rt.stdin().chain(io::empty()))?;
    let mut session = None;
    let mut kinds = Some((SettingKind::Colours, SummaryKind::Exact));
    // the input ends it
    for _ in 0..u64::MAX {
        kinds = match kinds {
            None => break,
            Some((SettingKind::Colours, SummaryKind::Exact)) => {
                Tool::<Colour, ExactList>::new(rt, &mut session).answer_lines(&mut input)?
            }
            Some((SettingKind::Colours, SummaryKind::Filter)) => {
                Tool::<Colour, Bloom>::new(rt, &mut session).answer_lines(&mut input)?
            }
            Some((SettingKind::Links, SummaryKind::Exact)) => {
                Tool::<Link, ExactList>::new(rt, &mut session).answer_lines(&mut input)?
            }
            Some((SettingKind::Links, SummaryKind::Filter)) => {
                Tool::<Link, Bloom>::new(rt, &mut session).answer_lines(&mut input)?
            }
        };
    }
    Ok(())
}

fn main(rt: HostRuntime) -> anyhow::Result<()> {
    run(&rt)
}
