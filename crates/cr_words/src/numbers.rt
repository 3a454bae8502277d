//! Numbers of one to nineteen decimal digits.

ghost use Rattle.std.specs.Prelude.{◌≡◌, ◌≤◌, IfSome};
ghost use Rattle.std.specs.Str.{all_ascii_digits};
ghost use Rattle.cr_words.specs.Numbers.{is_number, number_of, number_from};

// Whether each byte is a decimal digit.
fn are_digits(bytes: &[u8]) -> bool
    ensures { result ≡ all_ascii_digits bytes.now }
{
    for byte in bytes {
        if !byte.is_ascii_digit() {
            return false;
        }
    }
    true
}

// Whether a text is one to nineteen decimal digits.
fn is_number(text: &str) -> bool
    ensures { result ≡ is_number text.now }
{
    1 <= text.len() && text.len() <= 19 && are_digits(text.as_bytes())
}

// The number that a text is.
fn number_in(text: &str) -> Option<u64>
    ensures { result ≡ number_of text.now }
{
    if is_number(text) {
        text.parse::<u64>().ok()
    } else {
        None
    }
}

#[tactic(auto, unfolding(crate::specs::Numbers::number_from))]
/// The number that a text is in one to nineteen decimal digits, if it lies in the range.
pub fn number_between(text: &str, least: u64, most: u64) -> Option<u64>
    ensures value { result ≡ number_from least most text.now }
    ensures within { IfSome result (λ n. n ≤ most) }
{
    match number_in(text) {
        Some(number) if least <= number && number <= most => Some(number),
        _ => None,
    }
}

/// The same at a number of half the width.
pub fn small_between(text: &str, least: u32, most: u32) -> Option<u32>
    ensures { result ≡ number_from least most text.now }
{
    let number = number_between(text, u64::from(least), u64::from(most))?;
    u32::try_from(number).ok()
}
