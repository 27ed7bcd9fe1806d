//! Numbers in digits of any base.

ghost use Rattle.std.specs.Prelude.{◌≡◌, ◌≤◌, nat_le, if◌then◌else◌, Some, None, MatchOption, ⊤};
ghost use Rattle.std.specs.Char.{digit_value};
ghost use Rattle.std.specs.Str.Parse.{digits_value};

/// What a digit, or a letter of either case, stands for, and 36 for any other byte.
pub fn digit_value(byte: u8) -> u8
    ensures { result ≡ digit_value byte }
{
    match byte {
        b'0'..=b'9' => byte - b'0',
        b'A'..=b'Z' => byte - b'A' + 10,
        b'a'..=b'z' => byte - b'a' + 10,
        _ => 36,
    }
}

/// The number that the digits write, the highest first, where it isn't above `most`. Whether each byte is a digit of the base is for
/// the caller to judge.
pub fn digits_value(base: u8, digits: &[u8], most: u64) -> Option<u64>
    requires { 1 ≤ base }
    ensures value { let n = digits_value base digits.now in result ≡ (if nat_le n most then Some n else None) }
    ensures small { MatchOption result ⊤ (λ n. n ≤ most) }
{
    let mut value = 0u64;
    for byte in digits {
        let longer = u128::from(value) * u128::from(base) + u128::from(digit_value(*byte));
        if longer > u128::from(most) {
            return None;
        }
        value = longer as u64;
    }
    Some(value)
}
