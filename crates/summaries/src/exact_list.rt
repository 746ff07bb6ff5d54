// The exact list: a summary that names exactly the nodes that were packed.
ghost use Rattle.std.specs.Prelude.{◌≡◌, ◌+◌, ◌*◌, ◌<◌, ◌≤◌, ◌++◌, length, take, OnOk};
ghost use Rattle.summaries.specs.ExactLists.{exact_width, exact_list, numbers, NamesExactly};
ghost use Rattle.limits.specs.Limits.{most_reads};
ghost use Rattle.summaries.specs.Calls.{pack_answer, pack_region};
ghost use Rattle.summaries.specs.ExactLaws.{packed_wide, packed_bytes, names_packed};
ghost use Rattle.std.proofs.Common.{rules};

use crate::kind::Summary;
use limits::{NODE_WIDTH, READS};
use refusals::Refusal;

/// A summary of a count byte, the numbers in order, and zeros.
pub struct ExactList;

// The count, then the numbers, eight bytes each.
type Bytes = [u8; ExactList::WIDTH];

// Writes the numbers from byte 1 on, eight bytes each.
fn put_numbers(nodes: &[u64], bytes: &mut Bytes)
    requires { length nodes.now ≤ most_reads }
    ensures { take (1 + 8 * length nodes.now) bytes.new ≡ take 1 bytes.old ++ numbers nodes.now }
{
    // by their places: of what is written over `chunks_exact_mut` a proof learns nothing
    for (i, node) in nodes.iter().enumerate() {
        let at = 1 + NODE_WIDTH * i;
        bytes[at..at + NODE_WIDTH].copy_from_slice(&node.to_be_bytes());
    }
}

impl Summary for ExactList {
    const WIDTH: usize = 1 + READS * NODE_WIDTH;

    ghost WIDTH = { exact_width };

    ghost kind = { exact_list };

    ghost width_is_wide = { Prim.search rules };

    ghost some_width = { Prim.search rules };

    ghost within_limit = { Prim.search rules };

    ghost packed_is_wide = { packed_wide };

    ghost packed_is_bytes = { packed_bytes };

    ghost listed_are_named = { λ ns n few small h. (names_packed ns few small n).1 h };

    ghost none_from_none = { Prim.search rules };

    fn pack(nodes: &[u64], region: &mut [u8]) -> Result<(), Refusal>
        ensures answer { result ≡ pack_answer exact_list nodes.now region.old }
        ensures region { region.new ≡ pack_region exact_list nodes.now region.old }
        ensures exactly { OnOk result (NamesExactly nodes.now region.new) }
    {
        if nodes.len() > READS {
            return Err(Refusal::SummarySize);
        }
        let bytes: &mut Bytes = region.as_mut_array().ok_or(Refusal::SummarySize)?;
        bytes[0] = nodes.len() as u8;
        put_numbers(nodes, bytes);
        bytes[1 + NODE_WIDTH * nodes.len()..].fill(0);
        Ok(())
    }

    fn query(region: &[u8], node: u64) -> Result<bool, Refusal> {
        let bytes: &Bytes = region.as_array().ok_or(Refusal::SummarySize)?;
        let (numbers, _) = bytes[1..].as_chunks();
        let count = usize::from(bytes[0]).min(READS);
        // turning the node once spares turning each number
        let turned = u64::from_le_bytes(node.to_be_bytes());
        Ok(
            numbers[..count]
                .iter()
                .any(|number| u64::from_le_bytes(*number) == turned),
        )
    }
}
