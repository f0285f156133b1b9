// Certificates of the first edition written in the long-read edition: each mask becomes two bytes, all else is as it was.
#![tactic(auto)]

ghost use Rattle.std.specs.Prelude.{◌≡◌, ◌+◌, ◌*◌, ◌≤◌, length, drop};
ghost use Rattle.model.specs.Limits.{certificate_room};
ghost use Rattle.model.specs.Edition.{first_edition, long_reads};
ghost use Rattle.model.specs.Lists.{flat_map};
ghost use Rattle.model.specs.Bytes.{overwrite, part};
ghost use Rattle.model.specs.Certificate.{step_bytes, certificate_bytes, step_width, masks_at};
ghost use Rattle.words.specs.Packed.{unpacked};
ghost use Rattle.certificate.specs.View.{step_size, step_in, steps_in, certificate_of, IsRead};
ghost use Rattle.widen.specs.Promise.{Widens};

use certificate::Parts;
use node::{Edition, Node};
use refusals::Refusal;

// The bytes of a step of the first edition, with its command.
const FIRST_STEP_SIZE: usize = 2 + Node::MAX_TASKS;

// The masks of one byte each of the step whose command stands at a place, packed.
fn masks_at(s: &[u8], at: usize) -> u64
    requires { at + step_width first_edition ≤ length s.now }
    ensures { unpacked result ≡ masks_at first_edition (drop at s.now) }
{
    let mut masks = 0;
    for mask in &s[at + 2..at + FIRST_STEP_SIZE] {
        masks = masks * 65536 + u64::from(*mask);
    }
    masks
}

// Writes the step whose command stands at `from`.
fn widen_step(s: &[u8], from: usize, out: &mut [u8], at: usize)
    requires first_edition_in_bounds { from + step_width first_edition ≤ length s.now }
    requires step_size_in_bounds { at + step_size ≤ length out.old }
    ensures { out.new ≡ overwrite out.old at (step_bytes long_reads (step_in first_edition s.now from)) }
{
    let label = s[from + 1];
    certificate_bytes::write_step(out, at, label, masks_at(s, from));
}

// Writes the n steps from the place `from` on.
fn widen_steps(s: &[u8], from: usize, out: &mut [u8], at: usize, n: usize)
    requires n_in_bounds { from + step_width first_edition * n ≤ length s.now }
    requires n_in_bounds_2 { at + step_size * n ≤ length out.old }
    ensures { out.new ≡ overwrite out.old at (flat_map (step_bytes long_reads) (steps_in first_edition s.now from n)) }
{
    for i in 0..n {
        widen_step(
            s,
            from + FIRST_STEP_SIZE * i,
            out,
            at + certificate::STEP_SIZE * i,
        );
    }
}

// Copies what stands before a place, which is the same in both editions. By a loop: in a call for C, where two slices that are lent may lie
// anywhere, `copy_from_slice` is a call of memmove, which the library would then need from outside.
fn copy_front(s: &[u8], from: usize, out: &mut [u8])
    requires { (from ≤ length s.now) × (from ≤ length out.old) }
    ensures { out.new ≡ overwrite out.old 0 (part s.now 0 from) }
{
    for i in 0..from {
        out[i] = s[i];
    }
}

// Writes the certificate with these parts, and gives the number of its bytes.
fn write(s: &[u8], parts: Parts, out: &mut [u8]) -> usize
    requires read { IsRead first_edition s.now parts }
    requires certificate_room_in_bounds { certificate_room ≤ length out.old }
    ensures value { result ≡ length (certificate_bytes (certificate_of first_edition s.now parts)) }
    ensures out_after { out.new ≡ overwrite out.old 0 (certificate_bytes (certificate_of first_edition s.now parts)) }
{
    let from = parts.from;
    let n = parts.steps;
    copy_front(s, from, out);
    widen_steps(s, from, out, from, n);
    let end = from + certificate::STEP_SIZE * n;
    certificate_bytes::write_end(out, end);
    end + 1
}

// Writes a certificate of the first edition in the long-read edition, for all bytes.
pub fn widen(certificate: &[u8], out: &mut [u8]) -> Result<usize, Refusal>
    ensures { Widens certificate.now out.old out.new result }
{
    if out.len() < Node::CERTIFICATE_ROOM {
        return Err(Refusal::ShortMemory);
    }
    let Some(parts) = certificate::read_in(Edition::first(), certificate) else {
        return Err(Refusal::BadForm);
    };
    Ok(write(certificate, parts, out))
}
