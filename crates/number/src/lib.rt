// The number that a text is, in decimal. Digit by digit: std's `parse` takes a sign and leading zeros.
#![tactic(auto)]

ghost use Rattle.std.specs.Prelude.{◌≡◌};
ghost use Rattle.number.specs.Decimal.{number_in};

// The number that a text is, in decimal; nothing where it is none, has a leading zero, or is past 2^64 - 1.
#[tactic(auto, using(crate::proofs::NumberLaws::reading))]
pub fn number_in(text: &[u8]) -> Option<u64>
    ensures { result ≡ number_in text.now }
{
    let first = *text.first()?;
    if first == b'0' && 1 < text.len() {
        return None;
    }
    let mut number: u64 = 0;
    for byte in text {
        if !byte.is_ascii_digit() {
            return None;
        }
        let digit = u64::from(*byte - b'0');
        number = number.checked_mul(10)?.checked_add(digit)?;
    }
    Some(number)
}
