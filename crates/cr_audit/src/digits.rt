//! Numbers read from their decimal digits.

ghost use Rattle.std.specs.Prelude.{◌≡◌, ◌<◌, ◌≤◌, ◌↔◌, true, false, length, get_or, decimal, IsTrue, IfSome, IfNone};
ghost use Rattle.std.specs.List.{list_all};
ghost use Rattle.std.specs.Str.Parse.{digits_value};
ghost use Rattle.std.specs.Char.{is_ascii_digit};
ghost use Rattle.cr_model.specs.Texts.{IsNumber, NoneTells};

const GREATEST: u64 = (1 << 63) - 1;

/// The number whose digits these are, where it is at most 2^63 - 1. There are no leading zeros.
pub fn number_of(digits: &[u8]) -> Option<u64>
    ensures some { IfSome result (λ n. IsNumber n × (digits.now ≡ decimal n)) }
    ensures none { IfNone result (NoneTells decimal IsNumber digits.now) }
{
    if !is_plain(digits) {
        return None;
    }
    let Some(number) = sum_of(digits) else {
        return None;
    };
    if number <= GREATEST {
        Some(number)
    } else {
        None
    }
}

// Whether there are 1 to 19 bytes, of which the first is no zero that others follow.
fn is_plain(digits: &[u8]) -> bool
    ensures { IsTrue result ↔ ((0 < length digits.now) × (length digits.now ≤ 19) × (get_or digits.now 0 0 ≡ 48 → length digits.now ≡ 1)) }
{
    match digits.len() {
        0 => false,
        1 => true,
        2..=19 => digits[0] != b'0',
        _ => false,
    }
}

// The number that these bytes write, where each of them is a digit.
fn sum_of(digits: &[u8]) -> Option<u64>
    requires { length digits.now ≤ 19 }
    ensures some { IfSome result (λ sum. (list_all is_ascii_digit digits.now ≡ true) × (sum ≡ digits_value 10 digits.now)) }
    ensures none { IfNone result (list_all is_ascii_digit digits.now ≡ false) }
{
    let mut sum = 0;
    for byte in digits {
        if !byte.is_ascii_digit() {
            return None;
        }
        sum = 10 * sum + u64::from(*byte - b'0');
    }
    Some(sum)
}
