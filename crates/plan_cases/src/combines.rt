// Cases of two plans: for each what the call tells and leaves.
ghost use Rattle.std.specs.Prelude.{◌≡◌, List, ℕ, length};
ghost use Rattle.model.specs.Calls.{result_of, output_after};
ghost use Rattle.model.specs.Combine as model_combine;
ghost use Rattle.model.specs.PlanBytes.{plan_bytes};
ghost use Rattle.answer_text.specs.Finish.{result_line};

use std::fs::File;

// Writes what the combine call tells and leaves to standard output, and answers the length of the line.
fn write_combined(first: &[u8], second: &[u8], out: &mut [u8]) -> usize
    ensures value { result ≡ length (result_line (result_of plan_bytes (model_combine.combine first.now second.now (length out.old)))) }
    ensures out_after { out.new ≡ output_after plan_bytes (model_combine.combine first.now second.now (length out.old)) out.old }
{
    let answer = combine::rewrite(first, second, out);
    records::write_result(answer, out)
}

// Reads two plans and an output, and writes what the call tells and leaves.
pub fn combine_case(file: &mut File) -> usize
    ensures { (first : List ℕ) × (second : List ℕ) × (room : ℕ) × (result ≡ length (result_line (result_of plan_bytes (model_combine.combine first second room)))) }
{
    let mut first = io::large_buffer();
    let mut second = io::large_buffer();
    let mut out = io::buffer();
    let p = records::read_next(file, &mut first);
    let q = records::read_next(file, &mut second);
    let n = records::read_next(file, &mut out);
    write_combined(&first[..p], &second[..q], &mut out[..n])
}
