// Numbers as bytes, the highest byte first: how every field of several bytes is written.
#![tactic(auto)]

ghost use Rattle.std.specs.Prelude.{◌≡◌};
ghost use Rattle.number_bytes.specs.Bytes.{bytes_at, number_at};

/// The N bytes from `at` on, or `None` where `bytes` ends before.
pub fn array_at<const N: usize>(bytes: &[u8], at: usize) -> Option<[u8; N]>
    ensures { result ≡ bytes_at N bytes.now at }
{
    bytes.get(at..)?.first_chunk().copied()
}

/// The number in the eight bytes from `at` on, or `None` where `bytes` ends before.
pub fn u64_at(bytes: &[u8], at: usize) -> Option<u64>
    ensures { result ≡ number_at 8 bytes.now at }
{
    Some(u64::from_be_bytes(array_at(bytes, at)?))
}

/// The number in the four bytes from `at` on, or `None` where `bytes` ends before.
pub fn u32_at(bytes: &[u8], at: usize) -> Option<u32>
    ensures { result ≡ number_at 4 bytes.now at }
{
    Some(u32::from_be_bytes(array_at(bytes, at)?))
}
