// Composing a message: the header, the summary of the reads, the writes.
ghost use Rattle.std.specs.Prelude.{◌≡◌, ◌*◌, ◌≤◌, length, take, Some, IfOk};
ghost use Rattle.messages.specs.Composing.{header_bytes, write_bytes, message, composed, misfit_words, Composes, buffer_after, Numbered};
ghost use Rattle.messages.specs.Layout.{write_width};
ghost use Rattle.messages.specs.Returning.{Returns};
ghost use Rattle.std.specs.List.{flat_map, AllByRecursion};

use crate::layout::{VERSION, write_start};
use crate::parts::{Origin, Write};
use limits::{HEADER, NODE_WIDTH, READS, SLOTS, SUITES, WRITES, outside};
use settings::kind::Setting;
use std::error::Error;
use std::fmt;
use summaries::kind::Summary;

/// Why a message was not composed, in the order of the checks; the buffer is then as it was.
#[derive(Clone, Copy, PartialEq, Eq, Debug)]
pub enum Misfit {
    /// The suite is not 1 to 8.
    Suite,
    /// The slot is not 1 to 4.
    Slot,
    /// More than 32 nodes were read.
    Reads,
    /// There are no writes, or more than 16.
    Writes,
    /// The buffer is shorter than the message.
    Buffer,
}

impl fmt::Display for Misfit {
    ghost output = { λ misfit. Some (misfit_words misfit) };

    fn fmt<W: fmt::Write>(&self, f: &mut fmt::Formatter<W>) -> fmt::Result {
        f.write_str(match self {
            Misfit::Suite => "the suite is not 1 to 8",
            Misfit::Slot => "the slot is not 1 to 4",
            Misfit::Reads => "a move reads at most 32 nodes",
            Misfit::Writes => "a message has 1 to 16 writes",
            Misfit::Buffer => "the message is too long",
        })
    }
}

impl Error for Misfit {}

// The message's length, or what does not fit.
fn measure<T: Setting, S: Summary>(
    from: Origin,
    reads: usize,
    writes: usize,
    room: usize,
) -> Result<usize, Misfit>
    ensures answer { result ≡ composed S.Summary.kind T.Setting.kind from reads writes room }
    ensures facts { IfOk result (λ n. Composes S.Summary.kind T.Setting.kind from reads writes room n) }
{
    if outside(usize::from(from.suite), SUITES) {
        return Err(Misfit::Suite);
    }
    if outside(usize::from(from.slot), SLOTS) {
        return Err(Misfit::Slot);
    }
    if reads > READS {
        return Err(Misfit::Reads);
    }
    if outside(writes, WRITES) {
        return Err(Misfit::Writes);
    }
    let length = write_start::<T, S>(writes);
    if room < length {
        return Err(Misfit::Buffer);
    }
    Ok(length)
}

// The header of a message of `whole` bytes.
fn header(whole: u16, from: Origin, writes: u8) -> [u8; HEADER]
    requires { 2 ≤ whole }
    ensures { result ≡ header_bytes whole from writes }
{
    let [high, low] = (whole - 2).to_be_bytes();
    let [a, b, c, d] = from.snapshot.to_be_bytes();
    [
        high, low, VERSION, from.suite, from.slot, writes, a, b, c, d,
    ]
}

// Writes a record over a region of its width.
fn put_write<T: Setting>(write: &Write<T>, region: &mut [u8])
    requires { length region.old ≡ write_width T.Setting.kind.wide }
    ensures number { Numbered write.now }
    ensures region { region.new ≡ write_bytes T.Setting.kind write.now }
{
    let (node, setting) = region.split_at_mut(NODE_WIDTH);
    node.copy_from_slice(&write.node.to_be_bytes());
    let _ = write.setting.write(setting); // it has the width
}

// Writes the records one after the other over a region of their length.
fn put_writes<T: Setting>(writes: &[Write<T>], region: &mut [u8])
    requires { length region.old ≡ length writes.now * write_width T.Setting.kind.wide }
    ensures numbers { AllByRecursion Numbered writes.now }
    ensures region { region.new ≡ flat_map (write_bytes T.Setting.kind) writes.now }
{
    let width = NODE_WIDTH + T::WIDTH;
    // by their numbers: of what is written over `chunks_exact_mut` a proof learns nothing
    for (i, write) in writes.iter().enumerate() {
        let start = i * width;
        put_write(write, &mut region[start..start + width]);
    }
}

/// Writes the message of a move to the front of the buffer and gives its length; the buffer's rest is as it was.
pub fn compose<T: Setting, S: Summary>(
    from: Origin,
    reads: &[u64],
    writes: &[Write<T>],
    buffer: &mut [u8],
) -> Result<usize, Misfit>
    ensures answer { result ≡ composed S.Summary.kind T.Setting.kind from (length reads.now) (length writes.now) (length buffer.old) }
    ensures buffer { buffer.new ≡ buffer_after result (message S.Summary.kind T.Setting.kind from reads.now writes.now) buffer.old }
    ensures facts { IfOk result (λ n. Composes S.Summary.kind T.Setting.kind from (length reads.now) (length writes.now) (length buffer.old) n) }
    ensures law { IfOk result (λ n. Returns S.Summary.kind T.Setting.kind from reads.now writes.now (take n buffer.new)) }
{
    let length = measure::<T, S>(from, reads.len(), writes.len(), buffer.len())?;
    let summary_end = HEADER + S::WIDTH;
    buffer[..HEADER].copy_from_slice(&header(length as u16, from, writes.len() as u8));
    let _ = S::pack(reads, &mut buffer[HEADER..summary_end]); // both were measured
    put_writes(writes, &mut buffer[summary_end..length]);
    Ok(length)
}
