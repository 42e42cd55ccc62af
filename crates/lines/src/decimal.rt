// Numbers in decimal digits.
ghost use Rattle.std.specs.Prelude.{◌≡◌};
ghost use Rattle.lines.specs.Decimals.{with_digit, decimal_of};

// The number with one digit more behind it.
fn with_digit(n: u64, digit: u8) -> Option<u64>
    ensures { result ≡ with_digit n digit }
{
    let units = char::from(digit).to_digit(10)?;
    n.checked_mul(10)?.checked_add(u64::from(units))
}

// The number of 64 bits that these digits spell.
pub fn decimal(digits: &[u8]) -> Option<u64>
    ensures { result ≡ decimal_of digits.now }
{
    if digits.is_empty() {
        return None;
    }
    // Tried as `try_fold`: `returns` stayed open, and a lemma of the fold would be longer than the loop's invariant.
    let mut n: u64 = 0;
    for digit in digits {
        n = with_digit(n, *digit)?;
    }
    Some(n)
}
