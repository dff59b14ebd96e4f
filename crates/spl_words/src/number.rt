ghost use Rattle.std.specs.Prelude.{◌≡◌, ◌≤◌, IfSome};
ghost use Rattle.spl_words.specs.Numbers.{number_of, number_in};

/// The number of 1 to 20 decimal digits, where it has 64 bits.
fn number_of(text: &[u8]) -> Option<u64>
    ensures { result ≡ number_of text.now }
{
    if text.is_empty() || text.len() > 20 {
        return None;
    }
    let mut number: u64 = 0;
    for byte in text {
        if !byte.is_ascii_digit() {
            return None;
        }
        let digit = (*byte - b'0') as u64;
        if number > (u64::MAX - digit) / 10 {
            return None;
        }
        number = 10 * number + digit;
    }
    Some(number)
}

/// The number that a text spells, where it is from `least` to `most`.
pub fn number_in(text: &[u8], least: u64, most: u64) -> Option<u64>
    ensures value { result ≡ number_in least most text.now }
    ensures least { IfSome result (λ number. least ≤ number) }
    ensures most { IfSome result (λ number. number ≤ most) }
{
    let number = number_of(text)?;
    if least <= number && number <= most {
        Some(number)
    } else {
        None
    }
}

/// The same for numbers of 32 bits.
pub fn small_number_in(text: &[u8], least: u32, most: u32) -> Option<u32>
    ensures value { result ≡ number_in least most text.now }
    ensures least { IfSome result (λ number. least ≤ number) }
    ensures most { IfSome result (λ number. number ≤ most) }
{
    let number = number_in(text, least as u64, most as u64)?;
    Some(number as u32)
}
