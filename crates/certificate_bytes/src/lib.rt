// Certificates written piece by piece.
#![tactic(auto)]

ghost use Rattle.std.specs.Prelude.{◌≡◌, ◌∷◌, ◌+◌, ◌*◌, ◌≤◌, ◌<◌, length};
ghost use Rattle.model.specs.Bytes.{bytes, complement, overwrite};
ghost use Rattle.model.specs.Edition.{long_reads};
ghost use Rattle.model.specs.Certificate.{step_bytes};
ghost use Rattle.certificate.specs.View.{potential_command, potential_width, head_size, potential_size, cycle_size, step_size};
ghost use Rattle.certificate_bytes.specs.Pieces.{head_bytes, node_bytes, packed_step, end_bytes};

use fraction::Fraction;

// Writes the head, for n potentials.
pub fn write_head(out: &mut [u8], fraction: Fraction, n: u16)
    requires { head_size ≤ length out.old }
    ensures { out.new ≡ overwrite out.old 0 (head_bytes fraction.p fraction.q n) }
{
    out[0] = 0x11;
    words::write_u32(out, 1, fraction.p);
    words::write_u32(out, 5, fraction.q);
    words::write_u16(out, 9, n);
}

// Writes the potential i.
pub fn write_potential(out: &mut [u8], i: usize, z: i64)
    requires { head_size + potential_size * i + potential_size ≤ length out.old }
    ensures { out.new ≡ overwrite out.old (head_size + potential_size * i) (potential_command ∷ bytes potential_width (complement z)) }
{
    let at = certificate::HEAD_SIZE + certificate::POTENTIAL_SIZE * i;
    out[at] = 0x12;
    words::write_i64(out, at + 1, z);
}

// Writes the node where the cycle starts.
pub fn write_cycle_head(out: &mut [u8], at: usize, node: u16)
    requires { at + cycle_size ≤ length out.old }
    ensures { out.new ≡ overwrite out.old at (node_bytes node) }
{
    out[at] = 0x13;
    words::write_u16(out, at + 1, node);
}

// Writes a step, its masks packed.
pub fn write_step(out: &mut [u8], at: usize, label: u8, masks: u64)
    requires { at + step_size ≤ length out.old }
    ensures { out.new ≡ overwrite out.old at (step_bytes long_reads (packed_step label masks)) }
{
    out[at] = 0x14;
    out[at + 1] = label;
    words::write_u64(out, at + 2, masks);
}

// Writes the end.
pub fn write_end(out: &mut [u8], at: usize)
    requires { at < length out.old }
    ensures { out.new ≡ overwrite out.old at end_bytes }
{
    out[at] = 0x15;
}
