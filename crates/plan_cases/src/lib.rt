// Cases of calls on plans that build no graph: each kind reads its fields and writes what is due for them.
#![tactic(auto)]

pub mod combines; // combines.rt: two plans, and an output
pub mod gaps; // gaps.rt: a plan, a task or a set of tasks and a gap, and an output
pub mod plans; // plans.rt: a plan
pub mod traces; // traces.rt: a plan and its labels, and the output lent to the trace call

ghost use Rattle.std.specs.Prelude.{◌≡◌, true, false, MatchResult};
ghost use Rattle.plan_cases.specs.Kinds.{is_plan_kind};

use std::fs::File;

// The kinds by their numbers.
#[derive(Clone, Copy, Debug, PartialEq, Eq)]
enum Kind {
    Plan = 1,
    Trace = 2,
    Gap = 5,
    Combine = 6,
    TraceCall = 12,
    GroupGap = 15,
}

impl TryFrom<u8> for Kind {
    type Error = ();

    fn try_from(kind: u8) -> Result<Kind, ()>
        ensures { MatchResult result (λ k. is_plan_kind kind ≡ true) (λ e. is_plan_kind kind ≡ false) }
    {
        match kind {
            1 => Ok(Kind::Plan),
            2 => Ok(Kind::Trace),
            5 => Ok(Kind::Gap),
            6 => Ok(Kind::Combine),
            12 => Ok(Kind::TraceCall),
            15 => Ok(Kind::GroupGap),
            _ => Err(()),
        }
    }
}

// Runs the next case of the file if its kind is one of these, and answers whether it is.
pub fn run(kind: u8, file: &mut File) -> bool
    ensures { result ≡ is_plan_kind kind }
{
    let Ok(kind) = Kind::try_from(kind) else {
        return false;
    };
    match kind {
        Kind::Plan => {
            plans::plan_case(file);
        }
        Kind::Trace => {
            traces::trace_case(file);
        }
        Kind::Gap => {
            gaps::gap_case(file, false);
        }
        Kind::Combine => {
            combines::combine_case(file);
        }
        Kind::TraceCall => {
            traces::trace_call_case(file);
        }
        Kind::GroupGap => {
            gaps::gap_case(file, true);
        }
    }
    true
}
