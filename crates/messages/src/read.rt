// Reading a message: its first fault, or its fields.
ghost use Rattle.std.specs.Prelude.{◌≡◌, ◌<◌, ◌≤◌, length, OnOk};
ghost use Rattle.messages.specs.Layout.{write_start};
ghost use Rattle.messages.specs.Reading as spec;
ghost use Rattle.messages.specs.Reading.{first_fault, judged};
ghost use Rattle.std.specs.List.{range_with_len, flat_map};

use crate::fault::{Cause, Fault};
use crate::layout::{VERSION, write_start};
use crate::parts::{Header, Origin, Write};
use limits::{HEADER, NODE_WIDTH, SLOTS, WRITES, outside};
use number_bytes::{u32_at, u64_at};
use settings::kind::Setting;
use std::marker::PhantomData;
use summaries::kind::Summary;

// The version and what else the header says, or `None` where it is cut short or its length field is false.
fn take_apart(message: &[u8]) -> Option<(u8, Header)>
    ensures { result ≡ spec.raw_header_in message.now }
{
    let &[high, low, version, suite, slot, writes, ..] = message else {
        return None;
    };
    let snapshot = u32_at(message, 6)?;
    if usize::from(u16::from_be_bytes([high, low])) != message.len() - 2 {
        return None;
    }
    let origin = Origin {
        suite,
        slot,
        snapshot,
    };
    Some((version, Header { origin, writes }))
}

// The header without a fault of the frame, or the first such fault.
fn frame<T: Setting, S: Summary>(message: &[u8], suites: usize, stamp: u32) -> Result<Header, Fault>
    ensures { result ≡ judged (first_fault (spec.frame_checks S.Summary.kind.wide T.Setting.kind.wide suites stamp message.now)) (spec.header_in message.now) }
{
    let Some((version, header)) = take_apart(message) else {
        return Err(Cause::Length.at(0));
    };
    if version != VERSION {
        return Err(Cause::Version.at(2));
    }
    if outside(usize::from(header.origin.suite), suites) {
        return Err(Cause::Sender.at(3));
    }
    if outside(usize::from(header.origin.slot), SLOTS) {
        return Err(Cause::Sender.at(4));
    }
    let writes = usize::from(header.writes);
    if outside(writes, WRITES) || message.len() != write_start::<T, S>(writes) {
        return Err(Cause::WriteCount.at(5));
    }
    if header.origin.snapshot > stamp {
        return Err(Cause::Snapshot.at(6));
    }
    Ok(header)
}

// The first writes of a message, all of which it holds whole.
#[derive(Drop)]
struct Writes<'a, T: Setting, S: Summary> {
    message: &'a [u8],
    count: usize,
    kinds: PhantomData<(T, S)>,
    ghost few: { count ≤ 255 },
    ghost whole: { write_start S.Summary.kind.wide T.Setting.kind.wide count ≤ length message.now },
}

impl<T: Setting, S: Summary> Writes<'_, T, S> {
    // The node number of write i.
    fn node(&self, i: usize) -> u64
        requires { i < self.now.count }
        ensures { result ≡ spec.node_in S.Summary.kind.wide T.Setting.kind.wide self.now.message.now i }
    {
        u64_at(self.message, write_start::<T, S>(i)).unwrap()
    }

    // The setting of write i, if its bytes are one's form.
    fn setting(&self, i: usize) -> Option<T>
        requires { i < self.now.count }
        ensures { result ≡ T.Setting.kind.reading (spec.setting_in S.Summary.kind.wide T.Setting.kind.wide self.now.message.now i) }
    {
        let at = write_start::<T, S>(i) + NODE_WIDTH;
        T::read(&self.message[at..at + T::WIDTH])
    }

    // Whether one of the first i writes has the node.
    fn is_given(&self, node: u64, i: usize) -> bool
        requires { i ≤ self.now.count }
        ensures { result ≡ spec.given_before S.Summary.kind.wide T.Setting.kind.wide self.now.message.now node i }
    {
        (0..i).any(|j| self.node(j) == node)
    }

    // The first fault of write i, if it has one.
    fn check(&self, nodes: &[u64], i: usize) -> Result<(), Fault>
        requires { i < self.now.count }
        ensures { result ≡ judged (first_fault (spec.write_checks S.Summary.kind.wide T.Setting.kind nodes.now self.now.message.now i)) tt }
    {
        let node = self.node(i);
        if !nodes.contains(&node) || self.is_given(node, i) {
            return Err(Cause::Node.at(write_start::<T, S>(i)));
        }
        if self.setting(i).is_none() {
            return Err(Cause::Setting.at(write_start::<T, S>(i) + NODE_WIDTH));
        }
        Ok(())
    }

    // The first fault of the writes, if they have one.
    fn check_all(&self, nodes: &[u64]) -> Result<(), Fault>
        ensures { result ≡ judged (first_fault (flat_map (spec.write_checks S.Summary.kind.wide T.Setting.kind nodes.now self.now.message.now) (range_with_len 0 self.now.count))) tt }
    {
        for i in 0..self.count {
            self.check(nodes, i)?;
        }
        Ok(())
    }
}

/// Reads a message: what its header says or, of all that is wrong with it, the first in the order of the checks.
/// The reader fitting the number of suites in the session, its own stamp and the session's nodes.
pub fn read<T: Setting, S: Summary>(
    message: &[u8],
    suites: usize,
    stamp: u32,
    nodes: &[u64],
) -> Result<Header, Fault>
    ensures answer { result ≡ spec.read_answer S.Summary.kind T.Setting.kind suites stamp nodes.now message.now }
    ensures first { spec.ExactFault (spec.checks S.Summary.kind T.Setting.kind suites stamp nodes.now message.now) result }
    ensures whole { OnOk result (spec.Faultless S.Summary.kind T.Setting.kind suites stamp nodes.now message.now) }
{
    let header = frame::<T, S>(message, suites, stamp)?;
    let writes = Writes::<T, S> {
        message,
        count: usize::from(header.writes),
        kinds: PhantomData,
    };
    writes.check_all(nodes)?;
    Ok(header)
}

/// The bytes of a message's summary: as many as the summary is wide, from byte 10 on, or as many as there are.
pub fn summary_of<S: Summary>(message: &[u8]) -> &[u8]
    ensures { result.now ≡ spec.summary_in S.Summary.kind.wide message.now }
{
    let from = message.len().min(HEADER);
    let to = message.len().min(HEADER + S::WIDTH);
    &message[from..to]
}

/// Write i of a message, counted from 0, if its header counts it, it is there whole, and its setting reads.
pub fn write_of<T: Setting, S: Summary>(message: &[u8], i: usize) -> Option<Write<T>>
    ensures { result ≡ spec.write_in S.Summary.kind T.Setting.kind message.now i }
{
    let count = usize::from(*message.get(5)?);
    if i >= count || message.len() < write_start::<T, S>(i + 1) {
        return None;
    }
    let writes = Writes::<T, S> {
        message,
        count: i + 1,
        kinds: PhantomData,
    };
    Some(Write {
        node: writes.node(i),
        setting: writes.setting(i)?,
    })
}
