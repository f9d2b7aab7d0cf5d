//! Numbers in the fields of records.

ghost use Rattle.std.specs.Prelude.{◌≡◌, ◌-◌, ◌^◌, ◌<◌, if◌then◌else◌, min, IfSome, Some, None};
ghost use Rattle.std.specs.List.{list_all};
ghost use Rattle.std.specs.Char.{is_ascii_digit};
ghost use Rattle.frame_text.specs.Numbers.{decimal_value, number_below as the_number_below};

// The most digits of a number.
const MOST_DIGITS: usize = 20;

/// The number below the limit that a field spells, in 1 to 20 decimal digits.
#[tactic(auto, unfolding(crate::specs::Numbers::number_below))]
pub fn number_below(field: &[u8], limit: u64) -> Option<u64>
    ensures value { result ≡ the_number_below limit field.now }
    ensures below { IfSome result (λ n. n < limit) }
{
    if field.is_empty() || field.len() > MOST_DIGITS {
        return None;
    }
    let value = decimal(field)?;
    if value < limit { Some(value) } else { None }
}

// The number that digits spell, or the greatest `u64` where that is less.
fn decimal(digits: &[u8]) -> Option<u64>
    ensures { result ≡ (if list_all is_ascii_digit digits.now
        then Some (min (decimal_value digits.now) (2 ^ 64 - 1)) else None) }
{
    let mut value: u64 = 0;
    for digit in digits {
        if !digit.is_ascii_digit() {
            return None;
        }
        value = value
            .saturating_mul(10)
            .saturating_add(u64::from(*digit - b'0'));
    }
    Some(value)
}
