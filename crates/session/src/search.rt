// The kept versions of a node among a suite's places: which one is seen at a snapshot, and which is the newest.
ghost use Rattle.std.specs.Prelude.{◌≡◌, ◌==◌, ◌*◌, length, find};
ghost use Rattle.std.specs.List.{position};
ghost use Rattle.limits.specs.Limits.{places_each};
ghost use Rattle.messages.specs.Reading.{known};
ghost use Rattle.session.specs.Choosing.{within, preferred};
ghost use Rattle.session.specs.Commits.{is_newer};
ghost use Rattle.session.specs.Versions.{best, versions_of};

use crate::place::Place;
use limits::PLACES;

/// Whether the node is in the list.
pub(crate) fn is_known(nodes: &[u64], node: u64) -> bool
    ensures { result ≡ known nodes.now node }
{
    nodes.contains(&node)
}

/// Where the node is in the list.
pub(crate) fn index_of(nodes: &[u64], node: u64) -> Option<usize>
    ensures { result ≡ position (λ x. x == node) nodes.now }
{
    nodes.iter().position(|x| *x == node)
}

/// The five places of the node; none where the session has no such node.
pub(crate) fn versions_of<'a, T>(nodes: &[u64], places: &'a [Place<T>], node: u64) -> &'a [Place<T>]
    requires { length places.now ≡ length nodes.now * places_each }
    ensures { result.now ≡ versions_of nodes.now places.now node }
{
    match index_of(nodes, node) {
        Some(i) => &places[i * PLACES..i * PLACES + PLACES],
        None => &[],
    }
}

// The place with index i, if the snapshot allows it and its stamp is not below that of what was found behind it; else what
// was found.
fn preferred<T: Copy>(
    snapshot: Option<u32>,
    i: usize,
    place: Place<T>,
    found: Option<(usize, Place<T>)>,
) -> Option<(usize, Place<T>)>
    ensures { result ≡ preferred (within snapshot place.stamp) i place found }
{
    match (snapshot, found) {
        (Some(most), _) if most < place.stamp => found,
        (_, Some((_, later))) if place.stamp < later.stamp => found,
        _ => Some((i, place)),
    }
}

/// Of the places whose stamp is not above the snapshot, or of all where none is given, the one with the highest stamp, and
/// its index; of equals the first.
pub(crate) fn best<T: Copy>(
    snapshot: Option<u32>,
    versions: &[Place<T>],
) -> Option<(usize, Place<T>)>
    ensures { result ≡ best (within snapshot) versions.now }
{
    let mut best = None;
    for i in (0..versions.len()).rev() {
        best = preferred(snapshot, i, versions[i], best);
    }
    best
}

/// Whether the newest of the node's places is above the snapshot.
pub(crate) fn is_newer<T: Copy>(
    nodes: &[u64],
    places: &[Place<T>],
    snapshot: u32,
    node: u64,
) -> bool
    requires { length places.now ≡ length nodes.now * places_each }
    ensures { result ≡ is_newer nodes.now places.now snapshot node }
{
    match best(None, versions_of(nodes, places, node)) {
        Some((_, newest)) => snapshot < newest.stamp,
        None => false,
    }
}

/// The first of these nodes whose newest place is above the snapshot.
pub(crate) fn first_newer<T: Copy>(
    nodes: &[u64],
    places: &[Place<T>],
    snapshot: u32,
    reads: &[u64],
) -> Option<u64>
    requires { length places.now ≡ length nodes.now * places_each }
    ensures { result ≡ find (is_newer nodes.now places.now snapshot) reads.now }
{
    reads
        .iter()
        .find(|node| is_newer(nodes, places, snapshot, **node))
        .copied()
}
