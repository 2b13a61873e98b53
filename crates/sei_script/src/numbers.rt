//! Numbers, as words spell them.
ghost use Rattle.std.specs.Prelude.{◌≡◌, ◌-◌, ◌^◌, min};
ghost use Rattle.std.specs.List.{list_all};
ghost use Rattle.std.specs.Option.{option_map};
ghost use Rattle.mc_model.specs.Numbers.{is_digit};
ghost use Rattle.sei_script.specs.Numbers.{number_of, is_number, digits_after, exact_of};

fn are_digits(word: &[u8]) -> bool
    ensures { result ≡ list_all is_digit word.now }
{
    word.iter().all(|b| *b >= b'0' && *b <= b'9')
}

/// The number that digits spell, at most the last u128.
fn capped_value(word: &[u8]) -> u128
    ensures { result ≡ min (digits_after 0 word.now) (2 ^ 128 - 1) }
{
    let mut value = 0u128;
    for b in word {
        let digit = b.saturating_sub(b'0') as u128;
        value = value.saturating_mul(10).saturating_add(digit);
    }
    value
}

fn is_number(word: &[u8]) -> bool
    ensures { result ≡ is_number word.now }
{
    match word {
        [] => false,
        [first, rest @ ..] => are_digits(word) && (*first != b'0' || rest.is_empty()),
    }
}

/// The number that a word spells, at most the last u64.
pub fn number(word: &[u8]) -> Option<u64>
    ensures { result ≡ option_map (λ n. min n (2 ^ 64 - 1)) (number_of word.now) }
{
    if is_number(word) {
        Some(capped_value(word).min(u64::MAX as u128) as u64)
    } else {
        None
    }
}

/// The number that a word spells, if it is a u64.
pub fn exact_number(word: &[u8]) -> Option<u64>
    ensures { result ≡ exact_of word.now }
{
    if !is_number(word) {
        return None;
    }
    let value = capped_value(word);
    if value <= u64::MAX as u128 {
        Some(value as u64)
    } else {
        None
    }
}
