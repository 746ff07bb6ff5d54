// How a suite rules on a message (its certification), and what it makes of a commit.
ghost use Rattle.std.specs.Prelude.{◌≤◌, IfOk, OnOk, ◌≡◌, ◌==◌, ◌&&◌, ◌*◌, ◌<◌, length, map, find, slice_index, take, ◌+◌, false, if◌then◌else◌, Ok, Err, nat_le};
ghost use Rattle.limits.specs.Limits.{places_each, slots_each, most_held, longest_message};
ghost use Rattle.lines.specs.Lines.{unusable, message_number};
ghost use Rattle.refusals.specs.declared.Refusal.TheVariants.{AllTaken};
ghost use Rattle.messages.specs.Reading.{header_in};
ghost use Rattle.session.specs.Commits.{is_newer};
ghost use Rattle.session.specs.Choosing.{read_by_any, first_spare, placed_all, Placeable, ruling_given, ruling_share};
ghost use Rattle.session.specs.Slotted.{slot_state};
ghost use Rattle.session.specs.Takes.{first_clash, ruling, writes_in};
ghost use Rattle.session.specs.Versions.{versions_of, with_version};

use crate::place::Place;
use crate::ruling::Outcome;
use crate::search::{index_of, is_newer, versions_of};
use crate::slot::Slot;
use limits::{PLACES, SLOTS};
use lines::line::Line;
use messages::fault::Fault;
use messages::parts::Header;
use messages::read::{read, summary_of, write_of};
use refusals::Refusal;
use settings::kind::Setting;
use summaries::kind::Summary;

/// Fetches the agreed message after the first `taken`, over the front of the buffer, and gives its length.
pub(crate) fn fetch_next<L: Line>(
    line: &L,
    taken: usize,
    buffer: &mut [u8],
) -> Result<usize, Refusal>
    requires room { length buffer.old ≡ longest_message }
    requires usable { unusable (L.Line.state line.now).limit ≡ false }
    ensures answer { result ≡ if nat_le (length (L.Line.state line.now).agreed) taken then Err AllTaken else Ok (length (message_number (L.Line.state line.now) (taken + 1))) }
    ensures message { IfOk result (λ n. take n buffer.new ≡ message_number (L.Line.state line.now) (taken + 1)) }
    ensures bound { IfOk result (λ n. n ≤ length buffer.new) }
    ensures few { OnOk result (taken < most_held) }
{
    if line.count()? <= taken {
        return Err(Refusal::AllTaken);
    }
    line.fetch(taken + 1, buffer)
}

// Whether the summary names the node.
fn names<S: Summary>(summary: &[u8], node: u64) -> bool
    requires { length summary.now ≡ S.Summary.kind.wide }
    ensures { result ≡ S.Summary.kind.names summary.now node }
{
    matches!(S::query(summary, node), Ok(true))
}

// Whether the node was committed after the snapshot, and the summary names it.
fn is_clash<T: Copy, S: Summary>(
    nodes: &[u64],
    places: &[Place<T>],
    snapshot: u32,
    summary: &[u8],
    node: u64,
) -> bool
    requires places { length places.now ≡ length nodes.now * places_each }
    requires summary { length summary.now ≡ S.Summary.kind.wide }
    ensures { result ≡ (is_newer nodes.now places.now snapshot node && S.Summary.kind.names summary.now node) }
{
    is_newer(nodes, places, snapshot, node) && names::<S>(summary, node)
}

/// The first node of the session that makes a message with this snapshot and summary a clash.
pub(crate) fn first_clash<T: Setting, S: Summary>(
    nodes: &[u64],
    places: &[Place<T>],
    snapshot: u32,
    summary: &[u8],
) -> Option<u64>
    requires places { length places.now ≡ length nodes.now * places_each }
    requires summary { length summary.now ≡ S.Summary.kind.wide }
    ensures { result ≡ first_clash S.Summary.kind T.Setting.kind nodes.now places.now snapshot summary.now }
{
    nodes
        .iter()
        .find(|node| is_clash::<T, S>(nodes, places, snapshot, summary, **node))
        .copied()
}

/// What a suite with this stamp and these places decides on a message, with what the message's header says; or its fault.
pub(crate) fn judge<T: Setting, S: Summary>(
    message: &[u8],
    suites: usize,
    stamp: u32,
    nodes: &[u64],
    places: &[Place<T>],
) -> Result<(Header, Outcome), Fault>
    requires size { length places.now ≡ length nodes.now * places_each }
    requires stamp { stamp < most_held }
    ensures ruling { ruling_given result ≡ ruling S.Summary.kind T.Setting.kind suites nodes.now (ruling_share stamp places.now) message.now }
    ensures header { IfOk result (λ judged. judged.0 ≡ header_in message.now) }
    ensures slot { OnOk result ((1 ≤ slice_index message.now 4) × (slice_index message.now 4 ≤ slots_each)) }
    ensures fine { OnOk result (Placeable S.Summary.kind T.Setting.kind nodes.now message.now) }
{
    let header = read::<T, S>(message, suites, stamp, nodes)?;
    let summary = summary_of::<S>(message);
    let clash = first_clash::<T, S>(nodes, places, header.origin.snapshot, summary);
    let outcome = match clash {
        Some(node) => Outcome::Clash(node),
        None => Outcome::Commit(stamp + 1),
    };
    Ok((header, outcome))
}

// Whether an open move sees the place at index j of a node's.
fn is_seen<T: Copy>(slots: &[Slot; SLOTS], versions: &[Place<T>], j: usize) -> bool
    ensures { result ≡ read_by_any (map slot_state slots.now) versions.now j }
{
    slots.iter().any(|slot| slot.sees(versions, j))
}

// The first of a node's places that no open move sees.
fn spare<T: Copy>(slots: &[Slot; SLOTS], versions: &[Place<T>]) -> usize
    ensures value { result ≡ first_spare (map slot_state slots.now) versions.now }
    ensures bound { result < places_each }
{
    (0..PLACES).find(|j| !is_seen(slots, versions, *j)).unwrap()
}

// Puts a version into one of the node's places.
fn overwrite<T: Copy>(
    nodes: &[u64],
    places: &mut [Place<T>],
    node: u64,
    j: usize,
    version: Place<T>,
)
    requires size { length places.old ≡ length nodes.now * places_each }
    requires bound { j < places_each }
    ensures { places.new ≡ with_version nodes.now places.old node j version }
{
    if let Some(i) = index_of(nodes, node) {
        places[i * PLACES + j] = version;
    }
}

/// Places the writes of a message under the stamp, each in a place of its node that no open move sees.
pub(crate) fn place_writes<T: Setting, S: Summary>(
    message: &[u8],
    count: usize,
    stamp: u32,
    slots: &[Slot; SLOTS],
    nodes: &[u64],
    places: &mut [Place<T>],
)
    requires size { length places.old ≡ length nodes.now * places_each }
    requires count { count ≡ slice_index message.now 5 }
    requires fine { Placeable S.Summary.kind T.Setting.kind nodes.now message.now }
    ensures { places.new ≡ placed_all nodes.now (map slot_state slots.now) stamp places.old (writes_in S.Summary.kind T.Setting.kind message.now) }
{
    for i in 0..count {
        let write = write_of::<T, S>(message, i).unwrap();
        let j = spare(slots, versions_of(nodes, places, write.node));
        let version = Place {
            stamp,
            setting: write.setting,
        };
        overwrite(nodes, places, write.node, j, version);
    }
}
