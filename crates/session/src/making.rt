// Making a session: what it is made of, and whether its nodes are different.
ghost use Rattle.std.specs.Prelude.{◌≡◌, ◌≤◌, length, replicate};
ghost use Rattle.limits.specs.Limits.{most_suites, most_nodes};
ghost use Rattle.session.specs.Making.{repeated, new_suite};

use crate::place::Place;
use crate::search::is_known;
use crate::suite::Suite;
use arrayvec::ArrayVec;
use limits::{NODES, SUITES};

/// Whether a number stands twice in the list.
pub(crate) fn repeated(nodes: &[u64]) -> bool
    ensures { result ≡ repeated nodes.now }
{
    for (i, node) in nodes.iter().enumerate() {
        if is_known(&nodes[i + 1..], *node) {
            return true;
        }
    }
    false
}

/// So many suites, as they are at first.
pub(crate) fn new_suites(count: usize) -> ArrayVec<Suite, SUITES>
    requires { count ≤ most_suites }
    ensures { result.items ≡ replicate count new_suite }
{
    let mut suites = ArrayVec::<Suite, SUITES>::new();
    for _ in 0..count {
        suites.push(Suite::default());
    }
    suites
}

/// The nodes in a session's own memory.
pub(crate) fn kept_nodes(nodes: &[u64]) -> ArrayVec<u64, NODES>
    requires { length nodes.now ≤ most_nodes }
    ensures { result.items ≡ nodes.now }
{
    let mut kept = ArrayVec::<u64, NODES>::new();
    for node in nodes {
        kept.push(*node);
    }
    kept
}

/// Puts the same version into every place.
pub(crate) fn fill<T: Copy>(places: &mut [Place<T>], version: Place<T>)
    ensures { places.new ≡ replicate (length places.old) version }
{
    // not by the slice's own `fill`, which asks that a clone cannot fail
    for i in 0..places.len() {
        places[i] = version;
    }
}
