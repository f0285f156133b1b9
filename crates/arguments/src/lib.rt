// Numbers in a program's arguments.
#![tactic(auto)]

ghost use Rattle.std.specs.Prelude.{◌≡◌, List, ℕ};
ghost use Rattle.arguments.specs.Decimal.{decimal_in, number_of};

use std::env::Env;

// The number that decimal digits are; one above the largest of 64 bits counts as that.
pub fn number_in(s: &[u8]) -> Option<u64>
    ensures { result ≡ number_of (decimal_in s.now) }
{
    if s.is_empty() {
        return None;
    }
    let mut value: u64 = 0;
    for b in s {
        if !b.is_ascii_digit() {
            return None;
        }
        value = value
            .saturating_mul(10)
            .saturating_add(u64::from(*b - b'0'));
    }
    Some(value)
}

// The number that an argument is.
pub fn number_at<E: Env>(rt: &E, i: usize) -> Option<u64>
    ensures { (argument : List ℕ) × (result ≡ number_of (decimal_in argument)) }
{
    let mut buffer = io::buffer();
    let n = host::argument(rt, i, &mut buffer);
    number_in(&buffer[..n])
}
