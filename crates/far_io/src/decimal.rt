//! Decimals of 64 bits.

ghost use Rattle.std.specs.Prelude.{◌≡◌, ◌+◌, ◌-◌, ◌*◌, ◌^◌, ◌<◌, ◌≤◌, ◌↔◌, decimal, IsSome, IfSome, IfNone};
ghost use Rattle.far_io.specs.Decimals.{IsDigit, IsDecimal, IsNoDecimal, value_of};

// The number with one digit more, where the byte is a digit and 64 bits hold it.
fn with_digit(number: u64, byte: u8) -> Option<u64>
    ensures some { IfSome result (λ more. IsDigit byte × (more ≡ number * 10 + (byte - 48))) }
    ensures fits { IfSome result (λ more. more < 2 ^ 64) }
    ensures none { IfNone result (IsDigit byte → 2 ^ 64 ≤ number * 10 + (byte - 48)) }
{
    if byte < b'0' || b'9' < byte {
        return None;
    }
    let more = number.checked_mul(10)?;
    more.checked_add((byte - b'0') as u64)
}

/// The number that a decimal spells: `0`, or a digit 1 to 9 followed by digits, with a value below 2^64. Any other text
/// gives None: one with a sign, a space, a leading zero or another byte, and the empty one. The grammar stands in
/// `docs/FORMATS.md`.
pub fn parse_decimal(text: &[u8]) -> Option<u64>
    ensures grammar { IsSome result ↔ IsDecimal text.now }
    ensures value { IfSome result (λ value. value ≡ value_of text.now) }

    // It is what std writes for that number, and where there is none, what it writes for no number.
    ensures spelled { IfSome result (λ value. text.now ≡ decimal value) }
    ensures none { IfNone result (IsNoDecimal text.now) }
{
    if text.is_empty() {
        return None;
    }
    if text[0] == b'0' && text.len() > 1 {
        return None;
    }
    let mut number: u64 = 0;
    for byte in text {
        number = with_digit(number, *byte)?;
    }
    Some(number)
}
