//! Numbers that are written in digits.
ghost use Rattle.std.specs.Prelude.{◌≡◌};
ghost use Rattle.script_text.specs.Numbers.{number_of};

/// The number that 1 to 20 digits spell, where a u64 holds it. Leading zeros are allowed.
pub fn number(digits: &[u8]) -> Option<u64>
    ensures { result ≡ number_of digits.now }
{
    if digits.is_empty() {
        return None;
    }
    if digits.len() > 20 {
        return None;
    }
    let mut value: u64 = 0;
    'digits: for digit in digits {
        if !digit.is_ascii_digit() {
            return None;
        }
        let tens = value.checked_mul(10)?;
        value = tens.checked_add(u64::from(*digit - b'0'))?;
    }
    Some(value)
}
