// What every kind of summary shows. Composing and ruling are written once, over this trait.
ghost use Rattle.std.specs.Prelude.{◌≡◌, ℕ, ◌≤◌, true, false, List, [], length};
ghost use Rattle.number_bytes.specs.Bytes.{Byte, Number};
ghost use Rattle.limits.specs.Limits.{most_reads, widest_summary};
ghost use Rattle.std.specs.List.{ContainsAt, AllByRecursion};
ghost use Rattle.summaries.specs.Calls.{pack_answer, pack_region, query_answer};
ghost use Rattle.summaries.specs.Kinds.{SummaryKind};

use refusals::Refusal;

/// A kind of summary: a width, a packing and a query.
pub trait Summary {
    /// Bytes of a summary, 1 to 512.
    const WIDTH: usize;

    // the constant, as clauses name it
    ghost WIDTH: { ℕ };

    // the meaning of the kind: width, names and packed
    ghost kind: { SummaryKind };

    /// The constant, which is the width that the definitions have.
    fn width_of() -> usize
        ensures answer { result ≡ kind.wide }
    {
        Self::WIDTH
    }

    /// Packs at most 32 numbers over a region of exactly the kind's width, whatever it held.
    fn pack(nodes: &[u64], region: &mut [u8]) -> Result<(), Refusal>
        ensures answer { result ≡ pack_answer kind nodes.now region.old }
        ensures region { region.new ≡ pack_region kind nodes.now region.old };

    /// Whether the bytes name the node.
    fn query(region: &[u8], node: u64) -> Result<bool, Refusal>
        ensures answer { result ≡ query_answer kind region.now node };

    ghost width_is_wide: { WIDTH ≡ kind.wide };

    ghost some_width: { 1 ≤ kind.wide };

    ghost within_limit: { kind.wide ≤ widest_summary };

    ghost packed_is_wide: { (ns : List ℕ) → length ns ≤ most_reads → length (kind.packed ns) ≡ kind.wide };

    ghost packed_is_bytes: { (ns : List ℕ) → length ns ≤ most_reads → AllByRecursion Byte (kind.packed ns) };

    ghost listed_are_named: { (ns : List ℕ) (n : ℕ) → length ns ≤ most_reads → AllByRecursion Number ns → ContainsAt ns n → kind.names (kind.packed ns) n ≡ true };

    ghost none_from_none: { (n : ℕ) → kind.names (kind.packed []) n ≡ false };
}
