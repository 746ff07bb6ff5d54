// Bytes written as text in hexadecimal digits, two for each byte.
ghost use Rattle.std.specs.Prelude.{◌≡◌, ◌*◌, ◌+◌, ◌/◌, ◌<◌, true, length, map, All, vec_items, IfSome, IfOk, string_bytes};
ghost use Rattle.std.specs.List.{list_all};
ghost use Rattle.std.specs.Option.{option_map};
ghost use Rattle.texts.specs.Texts.{hex_digit, hex_of, hex_text, hex_value, hex_within, is_hex, pair_value, written_over};

use std::alloc::{AllocError, Global};

/// Reads `text` as pairs of hexadecimal digits, in either case, writes their bytes over the front
/// of `out`, and gives how many they are. Where `text` is no such pairs, or `out` is too short
/// for them, it gives `None`, and writes nothing.
pub fn hex(text: &[u8], out: &mut [u8]) -> Option<usize>
    ensures answer { result ≡ option_map length (hex_within (length out.old) text.now) }
    ensures bytes { out.new
        ≡ written_over (hex_within (length out.old) text.now) out.old }
{
    if text.len() / 2 > out.len() {
        return None;
    }
    let pairs = digit_pairs(text)?;
    // by their places: of what is written through `iter_mut` and an adapter a proof learns nothing
    for (i, [high, low]) in pairs.iter().enumerate() {
        out[i] = byte_of(*high, *low);
    }
    Some(pairs.len())
}

/// Reads `text` as pairs of hexadecimal digits, in either case, and gives their bytes, or `None`
/// where it is no such pairs, or that there is no memory for them.
pub fn hex_bytes(heap: Global, text: &[u8]) -> Result<Option<Vec<u8>>, AllocError>
    ensures { IfOk result (λ bytes. option_map vec_items bytes ≡ hex_of text.now) }
{
    let Some(pairs) = digit_pairs(text) else {
        return Ok(None);
    };
    let mut bytes = Vec::with_capacity(heap, pairs.len())?;
    for [high, low] in pairs {
        bytes.push(byte_of(*high, *low))?;
    }
    Ok(Some(bytes))
}

/// The pairs of hexadecimal digits that `text` is, or `None` where it is no such pairs.
fn digit_pairs(text: &[u8]) -> Option<&[[u8; 2]]>
    ensures bytes { option_map (λ pairs. map pair_value pairs.now) result ≡ hex_of text.now }
    ensures digits { IfSome result (λ pairs. All (λ pair. list_all is_hex pair ≡ true) pairs.now) }
    ensures len { IfSome result (λ pairs. length pairs.now ≡ length text.now / 2) }
{
    let (pairs, rest) = text.as_chunks::<2>();
    if rest.is_empty() && all_hex(text) {
        Some(pairs)
    } else {
        None
    }
}

/// Whether every byte of `text` is a hexadecimal digit.
fn all_hex(text: &[u8]) -> bool
    ensures { result ≡ list_all is_hex text.now }
{
    text.iter().all(u8::is_ascii_hexdigit)
}

/// The byte that two hexadecimal digits write, the higher first.
fn byte_of(high: u8, low: u8) -> u8
    requires high { is_hex high ≡ true }
    requires low { is_hex low ≡ true }
    ensures { result ≡ hex_value high * 16 + hex_value low }
{
    let value = |digit| char::from(digit).to_digit(16).unwrap();
    (value(high) * 16 + value(low)) as u8
}

/// `bytes` written in hexadecimal digits, two for each, or that there is no memory for them.
pub fn hex_text(heap: Global, bytes: &[u8]) -> Result<String, AllocError>
    ensures { IfOk result (λ text. string_bytes text ≡ hex_text bytes.now) }
{
    let mut text = String::new(heap);
    for byte in bytes {
        text.push(hex_digit(*byte / 16))?;
        text.push(hex_digit(*byte % 16))?;
    }
    Ok(text)
}

/// The digit of a value below sixteen.
fn hex_digit(value: u8) -> char
    requires { value < 16 }
    ensures digit { result ≡ hex_digit value }
    ensures ascii { result < 128 }
{
    char::from_digit(u32::from(value), 16).unwrap()
}
