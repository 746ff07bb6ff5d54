// What a script line asks for.
use crate::kinds::{Order, SettingKind, SummaryKind};
use crate::value::Value;
use history::call::Call;
use limits::LINE_PLACE;
use session::suite_slot::SuiteSlot;
use std::alloc::Global;
use texts::{FromWords, Misread, integer, number_up_to};

// The most places of a line: more than it may have, so that such a line can be tried.
const MOST_PLACES: u64 = 5000;

/// The session to make, and its line.
#[derive(Drop)]
pub(crate) struct Making {
    pub setting: SettingKind,
    pub summary: SummaryKind,
    pub order: Order,
    /// How many bytes the line is made over.
    pub line_bytes: usize,
    pub suites: usize,
    pub nodes: Vec<u64>,
}

#[derive(Drop)]
pub(crate) enum Command<T> {
    Make(Making),
    Perform(Call<T>),
}

/// The form of each command.
pub(crate) const FORMS: &[&str] = &[
    "session SETTING SUMMARY LINE PLACES SUITES NODES",
    "begin SUITE SLOT",
    "read SUITE SLOT NODE",
    "write SUITE SLOT NODE VALUE",
    "commit SUITE SLOT",
    "abandon SUITE SLOT",
    "collect SUITE SLOT",
    "settle",
    "take SUITE",
];

impl<T: Value> FromWords for Command<T> {
    fn from_words(heap: Global, words: &[&[u8]]) -> Result<Command<T>, Misread> {
        let call = match words {
            [
                b"session",
                setting,
                summary,
                order,
                places,
                suites,
                nodes @ ..,
            ] => {
                return Ok(Command::Make(Making {
                    setting: SettingKind::try_from(*setting)?,
                    summary: SummaryKind::try_from(*summary)?,
                    order: Order::try_from(*order)?,
                    line_bytes: bytes_of(places)?,
                    suites: integer(suites)?,
                    nodes: integers(heap, nodes)?,
                }));
            }
            [b"begin", suite, slot] => Call::Begin(slot_at(suite, slot)?),
            [b"read", suite, slot, node] => Call::Read(slot_at(suite, slot)?, integer(node)?),
            [b"write", suite, slot, node, value @ ..] => Call::Write(
                slot_at(suite, slot)?,
                integer(node)?,
                T::parse(value).ok_or(Misread::Form)?,
            ),
            [b"commit", suite, slot] => Call::Commit(slot_at(suite, slot)?),
            [b"abandon", suite, slot] => Call::Abandon(slot_at(suite, slot)?),
            [b"collect", suite, slot] => Call::Collect(slot_at(suite, slot)?),
            [b"settle"] => Call::Settle,
            [b"take", suite] => Call::Take(integer(suite)?),
            _ => return Err(Misread::Form),
        };
        Ok(Command::Perform(call))
    }
}

// How many bytes a line has that has so many places.
fn bytes_of(places: &[u8]) -> Result<usize, Misread> {
    let places = number_up_to(places, MOST_PLACES).ok_or(Misread::Form)?;
    Ok(places as usize * LINE_PLACE)
}

fn slot_at(suite: &[u8], slot: &[u8]) -> Result<SuiteSlot, Misread> {
    Ok(SuiteSlot {
        suite: integer(suite)?,
        slot: integer(slot)?,
    })
}

fn integers(heap: Global, words: &[&[u8]]) -> Result<Vec<u64>, Misread> {
    words.iter().map(|word| integer(word)).try_collect(heap)
}
