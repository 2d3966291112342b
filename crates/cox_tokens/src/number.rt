//! Numbers as they are written.
ghost use Rattle.std.specs.Prelude.{◌≡◌, ◌<◌, ◌^◌, if◌then◌else◌, Some, None, IfSome};
ghost use Rattle.cox_tokens.specs.Number.{is_number, is_number_in, value_of};

/// The most decimal digits that a number may have.
pub const MAX_DIGITS: usize = 9;

/// The value of a number of 1 to `MAX_DIGITS` decimal digits.
pub fn read_number(token: &[u8]) -> Option<u32>
    ensures value { result ≡ (if is_number token.now then Some (value_of token.now) else None) }
    ensures small { IfSome result (λ n. n < 10 ^ MAX_DIGITS) }
{
    if token.is_empty() || token.len() > MAX_DIGITS {
        return None;
    }
    let mut value = 0;
    for &byte in token {
        if !byte.is_ascii_digit() {
            return None;
        }
        value = 10 * value + (byte - b'0') as u32;
    }
    Some(value)
}

/// The value of such a number, if it is of this range.
pub fn read_number_in(token: &[u8], least: u32, most: u32) -> Option<u32>
    ensures { result ≡ (if is_number_in least most token.now then Some (value_of token.now) else None) }
{
    match read_number(token) {
        Some(n) if least <= n && n <= most => Some(n),
        _ => None,
    }
}
