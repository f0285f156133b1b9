// Runs each case of cases.bin, and writes the line of its answer. The file is one of the program `cases`; the kinds are those of caps.
#![tactic(auto)]

mod calls; // calls.rt: a plan, a cap and a log, for the call
mod parts; // parts.rt: a plan, a cap and a log in parts

ghost use Rattle.std.specs.Prelude.{◌≡◌, true, false, MatchResult};
ghost use Rattle.cap_cases.specs.Kinds.{is_cap_kind};

use std::fs::File;

// The kinds by their numbers.
#[derive(Clone, Copy, Debug, PartialEq, Eq)]
enum Kind {
    Call = 16,
    Parts = 17,
}

impl TryFrom<u8> for Kind {
    type Error = ();

    fn try_from(kind: u8) -> Result<Kind, ()>
        ensures { MatchResult result (λ k. is_cap_kind kind ≡ true) (λ e. is_cap_kind kind ≡ false) }
    {
        match kind {
            16 => Ok(Kind::Call),
            17 => Ok(Kind::Parts),
            _ => Err(()),
        }
    }
}

// Runs the next case of the file if its kind is one of these, and answers whether it is.
fn run(kind: u8, file: &mut File) -> bool
    ensures { result ≡ is_cap_kind kind }
{
    let Ok(kind) = Kind::try_from(kind) else {
        return false;
    };
    let answer = match kind {
        Kind::Call => calls::call_case(file),
        Kind::Parts => parts::parts_case(file),
    };
    cap_text::print(answer);
    true
}

fn main(rt: HostRuntime) {
    records::run_cases(&rt, run);
}
