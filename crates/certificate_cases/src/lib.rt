// Cases of calls that build the graph: each kind reads its fields and writes what is due for them.
#![tactic(auto)]

pub mod calls; // calls.rt: a plan, a head and the memory lent to the solve call
pub mod checks; // checks.rt: a plan and a certificate
pub mod passes; // passes.rt: a plan, for the number of its passes
pub mod solves; // solves.rt: a plan and the head of its certificate

ghost use Rattle.std.specs.Prelude.{◌≡◌, true, false, MatchResult};
ghost use Rattle.certificate_cases.specs.Kinds.{is_certificate_kind};

use std::fs::File;

// The kinds by their numbers.
#[derive(Clone, Copy, Debug, PartialEq, Eq)]
enum Kind {
    Check = 3,
    Solve = 4,
    Passes = 7,
    Call = 8,
}

impl TryFrom<u8> for Kind {
    type Error = ();

    fn try_from(kind: u8) -> Result<Kind, ()>
        ensures { MatchResult result (λ k. is_certificate_kind kind ≡ true) (λ e. is_certificate_kind kind ≡ false) }
    {
        match kind {
            3 => Ok(Kind::Check),
            4 => Ok(Kind::Solve),
            7 => Ok(Kind::Passes),
            8 => Ok(Kind::Call),
            _ => Err(()),
        }
    }
}

// Runs the next case of the file if its kind is one of these, and answers whether it is.
pub fn run(kind: u8, file: &mut File) -> bool
    ensures { result ≡ is_certificate_kind kind }
{
    let Ok(kind) = Kind::try_from(kind) else {
        return false;
    };
    match kind {
        Kind::Check => {
            checks::check_case(file);
        }
        Kind::Solve => {
            solves::solve_case(file);
        }
        Kind::Passes => {
            passes::passes_case(file);
        }
        Kind::Call => {
            calls::call_case(file);
        }
    }
    true
}
