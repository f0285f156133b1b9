// Runs each case of cases.bin, and writes what its kind writes for it. The file is one of the program `cases`; the kinds are those of
// register blocks.
#![tactic(auto)]

mod replays; // replays.rt: a plan and all writes, for the call without state
mod scripts; // scripts.rt: a plan and a script of writes

ghost use Rattle.std.specs.Prelude.{◌≡◌, true, false, MatchResult};
ghost use Rattle.block_cases.specs.Kinds.{is_block_kind};

use std::fs::File;

// The kinds by their numbers.
#[derive(Clone, Copy, Debug, PartialEq, Eq)]
enum Kind {
    Block = 13,
    Replay = 14,
}

impl TryFrom<u8> for Kind {
    type Error = ();

    fn try_from(kind: u8) -> Result<Kind, ()>
        ensures { MatchResult result (λ k. is_block_kind kind ≡ true) (λ e. is_block_kind kind ≡ false) }
    {
        match kind {
            13 => Ok(Kind::Block),
            14 => Ok(Kind::Replay),
            _ => Err(()),
        }
    }
}

// Runs the next case of the file if its kind is one of these, and answers whether it is.
fn run(kind: u8, file: &mut File) -> bool
    ensures { result ≡ is_block_kind kind }
{
    let Ok(kind) = Kind::try_from(kind) else {
        return false;
    };
    match kind {
        Kind::Block => {
            scripts::block_case(file);
        }
        Kind::Replay => {
            replays::replay_case(file);
        }
    }
    true
}

fn main(rt: HostRuntime) {
    records::run_cases(&rt, run);
}
