// Cases of calls that carry a plan or a certificate from one edition to the other: each kind reads its fields and writes what is due for them.
#![tactic(auto)]

pub mod conversions; // conversions.rt: a plan of either edition, and an output
pub mod widenings; // widenings.rt: a certificate of the first edition, and the output lent to the widen call

ghost use Rattle.std.specs.Prelude.{◌≡◌, true, false, MatchResult};
ghost use Rattle.edition_cases.specs.Kinds.{is_edition_kind};

use std::fs::File;

// The kinds by their numbers.
#[derive(Clone, Copy, Debug, PartialEq, Eq)]
enum Kind {
    Forth = 9,
    Back = 10,
    Widen = 11,
}

impl TryFrom<u8> for Kind {
    type Error = ();

    fn try_from(kind: u8) -> Result<Kind, ()>
        ensures { MatchResult result (λ k. is_edition_kind kind ≡ true) (λ e. is_edition_kind kind ≡ false) }
    {
        match kind {
            9 => Ok(Kind::Forth),
            10 => Ok(Kind::Back),
            11 => Ok(Kind::Widen),
            _ => Err(()),
        }
    }
}

// Runs the next case of the file if its kind is one of these, and answers whether it is.
pub fn run(kind: u8, file: &mut File) -> bool
    ensures { result ≡ is_edition_kind kind }
{
    let Ok(kind) = Kind::try_from(kind) else {
        return false;
    };
    match kind {
        Kind::Forth => {
            conversions::forth_case(file);
        }
        Kind::Back => {
            conversions::back_case(file);
        }
        Kind::Widen => {
            widenings::widen_case(file);
        }
    }
    true
}
