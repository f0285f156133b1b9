// Cases of plans that are sent forth or back: for each what the call tells and leaves. Each way has its own pair of functions: one pair for both would
// need an enum and two definitions more to say what its contracts say in the call's name.
ghost use Rattle.std.specs.Prelude.{◌≡◌, List, ℕ, length};
ghost use Rattle.model.specs.Calls.{result_of, output_after};
ghost use Rattle.model.specs.Convert as model_convert;
ghost use Rattle.model.specs.Edition.{first_edition};
ghost use Rattle.model.specs.PlanBytes.{plan_bytes_in, plan_bytes};
ghost use Rattle.answer_text.specs.Finish.{result_line};

use std::fs::File;

// Writes what the forth call tells and leaves to standard output, and answers the length of the line.
fn write_forth(plan: &[u8], out: &mut [u8]) -> usize
    ensures value { result ≡ length (result_line (result_of plan_bytes (model_convert.forth plan.now (length out.old)))) }
    ensures out_after { out.new ≡ output_after plan_bytes (model_convert.forth plan.now (length out.old)) out.old }
{
    let answer = convert::forth(plan, out);
    records::write_result(answer, out)
}

// Reads a plan and an output, and writes what the forth call tells and leaves.
pub fn forth_case(file: &mut File) -> usize
    ensures { (plan : List ℕ) × (room : ℕ) × (result ≡ length (result_line (result_of plan_bytes (model_convert.forth plan room)))) }
{
    let mut plan = io::large_buffer();
    let mut out = io::buffer();
    let p = records::read_next(file, &mut plan);
    let n = records::read_next(file, &mut out);
    write_forth(&plan[..p], &mut out[..n])
}

// Writes what the back call tells and leaves to standard output, and answers the length of the line.
fn write_back(plan: &[u8], out: &mut [u8]) -> usize
    ensures value { result ≡ length (result_line (result_of (plan_bytes_in first_edition) (model_convert.back plan.now (length out.old)))) }
    ensures out_after { out.new ≡ output_after (plan_bytes_in first_edition) (model_convert.back plan.now (length out.old)) out.old }
{
    let answer = convert::back(plan, out);
    records::write_result(answer, out)
}

// Reads a plan and an output, and writes what the back call tells and leaves.
pub fn back_case(file: &mut File) -> usize
    ensures { (plan : List ℕ) × (room : ℕ) × (result ≡ length (result_line (result_of (plan_bytes_in first_edition) (model_convert.back plan room)))) }
{
    let mut plan = io::large_buffer();
    let mut out = io::buffer();
    let p = records::read_next(file, &mut plan);
    let n = records::read_next(file, &mut out);
    write_back(&plan[..p], &mut out[..n])
}
