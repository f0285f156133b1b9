// Big-endian numbers in slices of bytes, and writes that leave every other byte as it was.
#![tactic(auto)]

ghost use Rattle.std.specs.Prelude.{◌≡◌, ◌+◌, ◌≤◌, ◌<◌, length, get_or, replicate};
ghost use Rattle.model.specs.Bytes.{number, bytes, signed, complement, part, overwrite};

// The byte at a place.
pub fn byte(s: &[u8], at: usize) -> u32
    requires { at < length s.now }
    ensures { (result ≡ get_or s.now at 0) × (result < 256) }
{
    u32::from(s[at])
}

// The N bytes from a place on.
fn chunk<const N: usize>(s: &[u8], at: usize) -> [u8; N]
    requires { at + N ≤ length s.now }
    ensures { result ≡ part s.now at N }
{
    let mut bytes = [0; N];
    bytes.copy_from_slice(&s[at..at + N]);
    bytes
}

// The number of two bytes.
pub fn read_u16(s: &[u8], at: usize) -> u16
    requires { at + 2 ≤ length s.now }
    ensures { result ≡ number (part s.now at 2) }
{
    u16::from_be_bytes(chunk(s, at))
}

// The number of four bytes.
pub fn read_u32(s: &[u8], at: usize) -> u32
    requires { at + 4 ≤ length s.now }
    ensures { result ≡ number (part s.now at 4) }
{
    u32::from_be_bytes(chunk(s, at))
}

// The number of eight bytes.
pub fn read_u64(s: &[u8], at: usize) -> u64
    requires { at + 8 ≤ length s.now }
    ensures { result ≡ number (part s.now at 8) }
{
    u64::from_be_bytes(chunk(s, at))
}

// The signed number of eight bytes.
pub fn read_i64(s: &[u8], at: usize) -> i64
    requires { at + 8 ≤ length s.now }
    ensures { result ≡ signed (number (part s.now at 8)) }
{
    read_u64(s, at).cast_signed()
}

// Writes v as two bytes.
pub fn write_u16(s: &mut [u8], at: usize, v: u16)
    requires { at + 2 ≤ length s.old }
    ensures { s.new ≡ overwrite s.old at (bytes 2 v) }
{
    s[at..at + 2].copy_from_slice(&v.to_be_bytes());
}

// Writes v as four bytes.
pub fn write_u32(s: &mut [u8], at: usize, v: u32)
    requires { at + 4 ≤ length s.old }
    ensures { s.new ≡ overwrite s.old at (bytes 4 v) }
{
    s[at..at + 4].copy_from_slice(&v.to_be_bytes());
}

// Writes v as eight bytes.
pub fn write_u64(s: &mut [u8], at: usize, v: u64)
    requires { at + 8 ≤ length s.old }
    ensures { s.new ≡ overwrite s.old at (bytes 8 v) }
{
    s[at..at + 8].copy_from_slice(&v.to_be_bytes());
}

// Writes v as eight bytes, in two's complement.
pub fn write_i64(s: &mut [u8], at: usize, v: i64)
    requires { at + 8 ≤ length s.old }
    ensures { s.new ≡ overwrite s.old at (bytes 8 (complement v)) }
{
    write_u64(s, at, v.cast_unsigned());
}

// Writes b, n times.
pub fn fill(s: &mut [u8], at: usize, n: usize, b: u8)
    requires { at + n ≤ length s.old }
    ensures { s.new ≡ overwrite s.old at (replicate n b) }
{
    s[at..at + n].fill(b);
}

// Copies n bytes of src into dst.
pub fn copy(src: &[u8], from: usize, dst: &mut [u8], at: usize, n: usize)
    requires n_in_bounds { from + n ≤ length src.now }
    requires n_in_bounds_2 { at + n ≤ length dst.old }
    ensures { dst.new ≡ overwrite dst.old at (part src.now from n) }
{
    dst[at..at + n].copy_from_slice(&src[from..from + n]);
}
