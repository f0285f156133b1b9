// The check as text: the line of an accepted certificate, or of a refusal.
#![tactic(auto)]

ghost use Rattle.std.specs.Prelude.{◌≡◌, ◌+◌, ◌≤◌, leb, length};
ghost use Rattle.io.specs.Counts.{IsPrefixLen};
ghost use Rattle.model.specs.Bytes.{work_after, Put};
ghost use Rattle.model.specs.Check.{share, check};
ghost use Rattle.model.specs.Thousandths.{thousandths};
ghost use Rattle.model.specs.Limits.{work_room};
ghost use Rattle.model.specs.Text.{thousandths_text, check_text};
ghost use Rattle.check_text.specs.Line.{number_room, line_room};

use checker::Share;
use fraction::Fraction;

// Room for the line of a check.
pub fn line_room() -> [u8; 128]
    ensures { 128 ≡ length result }
{
    [0; 128]
}

// Writes the thousandths of a fraction, or `none`.
fn put_thousandths(out: &mut [u8], at: usize, fraction: Fraction) -> usize
    requires { at + number_room ≤ length out.old }
    ensures put { Put out.old out.new at (thousandths_text (thousandths fraction.p fraction.q)) result }
    ensures upper_bound { result ≤ at + number_room }
{
    match fraction.thousandths() {
        None => text::put_bytes(out, at, b"none"),
        Some(m) => text::put_number(out, at, m),
    }
}

// Writes p, q, N, K and the thousandths.
fn put_share(out: &mut [u8], answer: Share) -> usize
    requires { line_room ≤ length out.old }
    ensures put { Put out.old out.new 0 (check_text (share answer.fraction.p answer.fraction.q answer.n answer.k)) result }
    ensures upper_bound { result ≤ line_room }
{
    let fraction = answer.fraction;
    let p = u64::from(fraction.p);
    let q = u64::from(fraction.q);
    let a = text::put_three_fields(out, 0, p, q, answer.n as u64);
    let b = text::put_field(out, a, answer.k);
    let c = put_thousandths(out, b, fraction);
    text::put_bytes(out, c, b"\n")
}

// Writes the line of a certificate checked against a plan.
pub fn put_check(out: &mut [u8], plan: &[u8], certificate: &[u8], work: &mut [u8]) -> usize
    requires { line_room ≤ length out.old }
    ensures put { Put out.old out.new 0 (check_text (check plan.now certificate.now (length work.old))) result }
    ensures prefix_len { IsPrefixLen result out.new }
    ensures work_after { work.new ≡ work_after (leb work_room (length work.old)) work.old }
{
    match checker::check(plan, certificate, work) {
        Err(refusal) => text::put_refusal(out, refusal.number()),
        Ok(answer) => put_share(out, answer),
    }
}
