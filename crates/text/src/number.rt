// Decimal numbers below 2^64.
ghost use Rattle.std.specs.Prelude.{◌≡◌};
ghost use Rattle.text.specs.Decimal.{number_of};

// Not `str::parse`, which would read `+1` too.
#[tactic(auto, using(crate::proofs::DecimalLaws::num_over))]
pub fn read_number(field: &[u8]) -> Option<u64>
    ensures { result ≡ number_of field.now }
{
    if field.is_empty() {
        return None;
    }
    let mut value = 0u64;
    for byte in field {
        let digit = char::from(*byte).to_digit(10)?;
        value = value.checked_mul(10)?.checked_add(u64::from(digit))?;
    }
    Some(value)
}
