// Runs each case of cases.bin, and writes what its kind writes for it. The file has the number of cases in two bytes, and then
// for each one byte with its kind and its fields, each behind two bytes of its length.
#![tactic(auto)]

ghost use Rattle.std.specs.Prelude.{◌≡◌, ◌||◌};
ghost use Rattle.plan_cases.specs.Kinds.{is_plan_kind};
ghost use Rattle.edition_cases.specs.Kinds.{is_edition_kind};
ghost use Rattle.certificate_cases.specs.Kinds.{is_certificate_kind};

use std::fs::File;

// Runs the next case of the file if its kind is known, and answers whether it is.
fn run(kind: u8, file: &mut File) -> bool
    ensures { result ≡ (is_plan_kind kind || is_edition_kind kind || is_certificate_kind kind) }
{
    if plan_cases::run(kind, file) {
        return true;
    }
    if edition_cases::run(kind, file) {
        return true;
    }
    certificate_cases::run(kind, file)
}

fn main(rt: HostRuntime) {
    records::run_cases(&rt, run);
}
