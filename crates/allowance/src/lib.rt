// A certificate's potentials: their limit, and the allowance.
#![tactic(auto)]

ghost use Rattle.std.specs.Prelude.{◌≡◌};
ghost use Rattle.model.specs.Edition.{long_reads};
ghost use Rattle.model.specs.Lists.{all};
ghost use Rattle.model.specs.Check as check_model;
ghost use Rattle.certificate.specs.View.{certificate_of, IsRead};

use certificate::Parts;
use node::Node;

const MAX_POTENTIAL: u64 = Node::MAX_POTENTIAL as u64;

// Whether a potential lies within the limit.
fn within_limit(z: i64) -> bool
    ensures { result ≡ check_model.within_limit z }
{
    z.unsigned_abs() <= MAX_POTENTIAL
}

// Whether every potential lies within the limit.
pub fn within_limits(s: &[u8], parts: Parts) -> bool
    requires { IsRead long_reads s.now parts }
    ensures { result ≡ all check_model.within_limit (certificate_of long_reads s.now parts).potentials }
{
    for i in 0..parts.count {
        if !within_limit(certificate::potential(s, i)) {
            return false;
        }
    }
    true
}

// The start node's potential less the smallest.
pub fn allowance(s: &[u8], parts: Parts) -> u64
    requires { IsRead long_reads s.now parts }
    ensures { result ≡ check_model.allowance (certificate_of long_reads s.now parts).potentials }
{
    let first = certificate::potential(s, 0);
    let mut least = first;
    for i in 0..parts.count {
        least = certificate::potential(s, i).min(least);
    }
    first.abs_diff(least)
}
