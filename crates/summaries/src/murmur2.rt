// 32-bit MurmurHash2 of a node number.
ghost use Rattle.std.specs.Prelude.{◌≡◌};
ghost use Rattle.summaries.specs.Hashes as spec;

const MULTIPLIER: u32 = 0x5bd1_e995;

fn mix(k: u32) -> u32
    ensures { result ≡ spec.mixed k }
{
    let k = k.wrapping_mul(MULTIPLIER);
    let k = k ^ (k >> 24);
    k.wrapping_mul(MULTIPLIER)
}

fn take_in(h: u32, k: u32) -> u32
    ensures { result ≡ spec.taken_in h k }
{
    h.wrapping_mul(MULTIPLIER) ^ mix(k)
}

fn finish(h: u32) -> u32
    ensures { result ≡ spec.finished h }
{
    let h = h ^ (h >> 13);
    let h = h.wrapping_mul(MULTIPLIER);
    h ^ (h >> 15)
}

/// The hash of the number's eight bytes, highest first, with a seed.
pub fn murmur2(number: u64, seed: u32) -> u32
    ensures { result ≡ spec.murmur2 number seed }
{
    let [a, b, c, d, e, f, g, h] = number.to_be_bytes();
    let start = seed ^ 8;
    let middle = take_in(start, u32::from_le_bytes([a, b, c, d]));
    finish(take_in(middle, u32::from_le_bytes([e, f, g, h])))
}
