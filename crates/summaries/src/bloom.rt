// The Bloom summary: 512 bits, of which a node has twelve positions by double hashing.
ghost use Rattle.std.specs.Prelude.{◌≡◌, ◌+◌, ◌*◌, ◌%◌, ◌<◌, EachIndex, slice_index, OnOk};
ghost use Rattle.summaries.specs.Blooms.{bloom_width, hashes, position, has_bit, marked, bloom, SetsExactly};
ghost use Rattle.summaries.specs.Calls.{pack_answer, pack_region};
ghost use Rattle.summaries.specs.BloomLaws.{packed_wide, packed_bytes, listed_named, none_named};
ghost use Rattle.std.proofs.Common.{rules};

use crate::kind::Summary;
use crate::murmur2::murmur2;
use limits::READS;
use refusals::Refusal;
use std::array;

/// A summary of 512 bits.
pub struct Bloom;

// Bit p is bit p % 8 of byte p / 8, where bit 0 is the least.
type Bits = [u8; Bloom::WIDTH];

const BITS: u64 = 512;

const HASHES: usize = 12;

// The node's twelve positions, by double hashing.
fn positions(node: u64) -> [usize; HASHES]
    ensures are { EachIndex result (λ i. slice_index result i ≡ position node i) }
    ensures below { EachIndex result (λ i. slice_index result i < 512) }
{
    let a = murmur2(node, 0);
    let b = murmur2(node, a);
    array::from_fn(|i| ((u64::from(a) + i as u64 * u64::from(b)) % BITS) as usize)
}

// Sets the node's positions.
fn mark(node: u64, bits: &mut Bits)
    ensures { bits.new ≡ marked node hashes bits.old }
{
    for p in positions(node) {
        bits[p / 8] |= 1 << (p % 8);
    }
}

fn is_set(bits: &Bits, p: usize) -> bool
    requires { p < 512 }
    ensures { result ≡ has_bit p bits.now }
{
    (bits[p / 8] >> (p % 8)) & 1 == 1
}

impl Summary for Bloom {
    const WIDTH: usize = 64;

    ghost WIDTH = { bloom_width };

    ghost kind = { bloom };

    ghost width_is_wide = { Prim.search rules };

    ghost some_width = { Prim.search rules };

    ghost within_limit = { Prim.search rules };

    ghost packed_is_wide = { λ ns few. packed_wide ns };

    ghost packed_is_bytes = { λ ns few. packed_bytes ns };

    ghost listed_are_named = { λ ns n few small h. listed_named ns n h };

    ghost none_from_none = { none_named };

    fn pack(nodes: &[u64], region: &mut [u8]) -> Result<(), Refusal>
        ensures answer { result ≡ pack_answer bloom nodes.now region.old }
        ensures region { region.new ≡ pack_region bloom nodes.now region.old }
        ensures exactly { OnOk result (SetsExactly nodes.now region.new) }
    {
        if nodes.len() > READS {
            return Err(Refusal::SummarySize);
        }
        let bits: &mut Bits = region.as_mut_array().ok_or(Refusal::SummarySize)?;
        bits.fill(0);
        for node in nodes {
            mark(*node, bits);
        }
        Ok(())
    }

    fn query(region: &[u8], node: u64) -> Result<bool, Refusal> {
        let bits: &Bits = region.as_array().ok_or(Refusal::SummarySize)?;
        Ok(positions(node).iter().all(|p| is_set(bits, *p)))
    }
}
