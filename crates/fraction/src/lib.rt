// The fraction: lowest terms, limits, thousandths.
#![tactic(auto)]

ghost use Rattle.std.specs.Prelude.{◌≡◌, ◌/◌, ◌<◌};
ghost use Rattle.model.specs.Check as check_model;
ghost use Rattle.model.specs.Options.{option_of};
ghost use Rattle.model.specs.Thousandths as print_model;

use node::Node;

const MAX_P: u32 = Node::MAX_P;

const MAX_Q: u32 = Node::MAX_Q;

// p/q; 1/0 where nothing recurs.
#[derive(Clone, Copy, Debug, PartialEq, Eq)]
pub struct Fraction {
    pub p: u32,
    pub q: u32,
}

// The greatest common divisor.
pub fn gcd(a: u32, b: u32) -> u32
    ensures { result ≡ check_model.gcd a b }
{
    let mut x = a;
    let mut y = b;
    // No count: it goes on until a division leaves no rest.
    while y != 0 {
        let r = x % y;
        x = y;
        y = r;
    }
    x
}

impl Fraction {
    // Two numbers' fraction in lowest terms.
    pub fn lowest(kept: u32, ideal: u32) -> Fraction
        requires { 0 < ideal }
        ensures { (result.p ≡ kept / check_model.gcd kept ideal) × (result.q ≡ ideal / check_model.gcd kept ideal) }
    {
        let g = gcd(kept, ideal);
        Fraction {
            p: kept / g,
            q: ideal / g,
        }
    }

    // Whether it is 1/0 or in lowest terms within the limits.
    pub fn is_allowed(self) -> bool
        ensures { result ≡ check_model.fraction_ok self.p self.q }
    {
        let Fraction { p, q } = self;
        if q == 0 {
            return p == 1;
        }
        if MAX_P < p || MAX_Q < q {
            return false;
        }
        gcd(p, q) == 1
    }

    // It in thousandths, to the nearest, an exact half to the even; none for 1/0. p and q are any numbers of 32 bits, so 1000 p has 42 bits at
    // most and twice the rest 33. With an odd quotient the half itself goes up.
    pub fn thousandths(self) -> Option<u64>
        ensures result_value { option_of result ≡ print_model.thousandths self.p self.q }
        ensures printed { print_model.Printed self.p self.q (option_of result) }
    {
        let Fraction { p, q } = self;
        if q == 0 {
            return None;
        }
        let n = 1000 * p as u64;
        let d = q as u64;
        let whole = n / d;
        let rest = n % d;
        if d < 2 * rest + whole % 2 {
            let next = whole + 1;
            return Some(next);
        }
        Some(whole)
    }
}
