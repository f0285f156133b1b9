// Numbers and lines as text, written into lent bytes.
#![tactic(auto)]

ghost use Rattle.std.specs.Prelude.{◌++◌, ◌+◌, ◌≤◌, length};
ghost use Rattle.model.specs.Text.{decimal, field, number_line, refused_line};
ghost use Rattle.model.specs.Bytes.{Put};

// Writes some bytes at a place, and answers the place after them.
pub fn put_bytes(out: &mut [u8], at: usize, bytes: &[u8]) -> usize
    requires { at + length bytes.now ≤ length out.old }
    ensures { Put out.old out.new at bytes.now result }
{
    let end = at + bytes.len();
    out[at..end].copy_from_slice(bytes);
    end
}

// Writes n in decimal at a place, and answers the place after it.
pub fn put_number(out: &mut [u8], at: usize, n: u64) -> usize
    requires { at + length (decimal n) ≤ length out.old }
    ensures { Put out.old out.new at (decimal n) result }
{
    let mut digits = [0u8; 20];
    let k = io::decimal(n, &mut digits);
    put_bytes(out, at, &digits[..k])
}

// Writes n in decimal at a place and some bytes behind it, and answers the place after them.
fn put_number_with(out: &mut [u8], at: usize, n: u64, tail: &[u8]) -> usize
    requires { at + length (decimal n ++ tail.now) ≤ length out.old }
    ensures { Put out.old out.new at (decimal n ++ tail.now) result }
{
    let number = put_number(out, at, n);
    put_bytes(out, number, tail)
}

// Writes the line of a number at a place, and answers the place after it.
pub fn put_number_line(out: &mut [u8], at: usize, n: u64) -> usize
    requires { at + length (number_line n) ≤ length out.old }
    ensures { Put out.old out.new at (number_line n) result }
{
    put_number_with(out, at, n, b"\n")
}

// Writes the line of a refusal, and answers its length.
pub fn put_refusal(out: &mut [u8], n: u64) -> usize
    requires { length (refused_line n) ≤ length out.old }
    ensures { Put out.old out.new 0 (refused_line n) result }
{
    let word = put_bytes(out, 0, b"refused ");
    let number = put_number(out, word, n);
    put_bytes(out, number, b"\n")
}

// Writes n and a space.
pub fn put_field(out: &mut [u8], at: usize, n: u64) -> usize
    requires { at + length (field n) ≤ length out.old }
    ensures { Put out.old out.new at (field n) result }
{
    put_number_with(out, at, n, b" ")
}

// Writes three numbers, each and a space.
pub fn put_three_fields(out: &mut [u8], at: usize, x: u64, y: u64, z: u64) -> usize
    requires { at + length (field x ++ field y ++ field z) ≤ length out.old }
    ensures { Put out.old out.new at (field x ++ field y ++ field z) result }
{
    let a = put_field(out, at, x);
    let b = put_field(out, a, y);
    put_field(out, b, z)
}
