// Decimal numbers in text.
ghost use Rattle.std.specs.Prelude.{◌≡◌};
ghost use Rattle.texts.specs.Texts.{digit_after, number_of, number_up_to, signed_of};

/// The number that `field` writes in decimal digits, leading zeros allowed, or `None` where it
/// is empty, has any other byte or writes 2^64 or more.
pub fn number(field: &[u8]) -> Option<u64>
    ensures { result ≡ number_of field.now }
{
    let (first, rest) = field.split_first()?;
    let start = with_digit(0, *first)?;
    rest.iter()
        .try_fold(start, |value, byte| with_digit(value, *byte))
}

/// The number that `field` writes, as `number` reads it, or `None` where it is above `most`.
pub fn number_up_to(field: &[u8], most: u64) -> Option<u64>
    ensures { result ≡ number_up_to most field.now }
{
    number(field).filter(|value| *value <= most)
}

/// The number that `field` writes in decimal digits, after a minus where it is negative, or
/// `None` where it writes none or one that `i32` does not hold.
pub fn signed(field: &[u8]) -> Option<i32>
    ensures { result ≡ signed_of field.now }
{
    match field {
        [b'-', digits @ ..] => i32::try_from(-i64::try_from(number(digits)?).ok()?).ok(),
        _ => i32::try_from(number(field)?).ok(),
    }
}

/// `value` with the digit `byte` behind it, or `None` where that is no digit or does not fit.
fn with_digit(value: u64, byte: u8) -> Option<u64>
    ensures { result ≡ digit_after value byte }
{
    let digit = char::from(byte).to_digit(10)?;
    value.checked_mul(10)?.checked_add(u64::from(digit))
}
