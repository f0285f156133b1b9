// Why a call gives no result, each refusal with its number.
#![tactic(auto)]

ghost use Rattle.std.specs.Prelude.{◌≡◌};
ghost use Rattle.refusals.specs.Numbers.{refusal_number};

use plan::Fault;

// The plan's author, the certificate's, the calling program, whoever lists releases, whoever asks for another plan, whoever writes to the
// register block, whoever asks about a cap.
#[derive(Clone, Copy, Debug, PartialEq, Eq)]
pub enum Refusal {
    Plan(Fault),
    TooManyNodes,
    BadForm,
    BadFraction,
    BadCount,
    BadPotential,
    BadCycle,
    ShortMemory,
    TooManyLabels,
    NotAdmitted,
    BadGap,
    TooManyPairs,
    NotInFirst,
    BadWrite,
    BadCap,
}

impl From<Fault> for Refusal {
    ghost use Rattle.std.specs.Prelude.{◌≡◌};
    ghost use Rattle.refusals.specs.declared.Refusal.TheVariants.{Plan};

    ghost from_gives = { λ f r. r ≡ Plan f };

    fn from(f: Fault) -> Refusal {
        Refusal::Plan(f)
    }
}

impl Refusal {
    // Its number.
    pub fn number(self) -> u64
        ensures { result ≡ refusal_number self }
    {
        match self {
            Refusal::Plan(f) => f.number(),
            Refusal::TooManyNodes => 5,
            Refusal::BadForm => 6,
            Refusal::BadFraction => 7,
            Refusal::BadCount => 8,
            Refusal::BadPotential => 9,
            Refusal::BadCycle => 10,
            Refusal::ShortMemory => 11,
            Refusal::TooManyLabels => 12,
            Refusal::NotAdmitted => 13,
            Refusal::BadGap => 14,
            Refusal::TooManyPairs => 15,
            Refusal::NotInFirst => 16,
            Refusal::BadWrite => 17,
            Refusal::BadCap => 18,
        }
    }
}
