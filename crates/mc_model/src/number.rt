//! Numbers in decimal digits.

ghost use Rattle.std.specs.Prelude.{◌≡◌, ℕ, ◌^◌, ◌-◌, ◌≤◌, IfSome};
ghost use Rattle.mc_model.specs.Numbers.{number_upto};

/// The number that the bytes spell, if they are one or more decimal digits without a sign, and the
/// number is at most `max`. Leading zeros are allowed.
pub fn number_upto(max: u64, bytes: &[u8]) -> Option<u64>
    ensures value { result ≡ number_upto max bytes.now }
    ensures within { IfSome result (λ n. n ≤ max) }
{
    if bytes.is_empty() {
        return None;
    }
    let mut number = 0u64;
    for b in bytes {
        if !b.is_ascii_digit() {
            return None;
        }
        let digit = (*b - b'0') as u64;
        if number > max / 10 || digit > max - 10 * number {
            return None;
        }
        number = 10 * number + digit;
    }
    Some(number)
}
