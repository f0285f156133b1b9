// Certificates: the form, read in place.
#![tactic(auto)]

ghost use Rattle.std.specs.Prelude.{◌≡◌, ◌⊎◌, ◌+◌, ◌-◌, ◌*◌, ◌^◌, ◌≤◌, ◌<◌, length, drop};
ghost use Rattle.std.proofs.Math.Option.{some};
ghost use Rattle.model.specs.Edition as edition_model;
ghost use Rattle.model.specs.Edition.{long_reads};
ghost use Rattle.model.specs.Bytes.{number, part};
ghost use Rattle.model.specs.Check as check_model;
ghost use Rattle.model.specs.Certificate as model;
ghost use Rattle.node.specs.Edition.{edition_of};
ghost use Rattle.words.specs.Packed.{unpacked};
ghost use Rattle.certificate.specs.View.{MasksLegible, head_size, potential_size, certificate_of, in_place, PotentialsRead, StepsRead, IsRead, HasPotential, step_at, cycle_from};

use fraction::Fraction;
use node::{Edition, Node};

// The bytes of the head, of a potential, of the cycle's start and of a long-read step, each with its command.
pub const HEAD_SIZE: usize = 11;

pub const POTENTIAL_SIZE: usize = 9;

pub const CYCLE_SIZE: usize = 3;

pub const STEP_SIZE: usize = 2 + Edition::MASK_WIDTH * Node::MAX_TASKS;

const MAX_NODES: usize = Node::MAX_NODES;

const MAX_STEPS: usize = Node::MAX_STEPS;

// A certificate's numbers, and where its lists stand: `count` potentials after the head, and `steps`
// steps from the place `from` on.
#[derive(Clone, Copy, Debug, PartialEq, Eq)]
pub struct Parts {
    pub fraction: Fraction,
    pub count: usize,
    pub node: usize,
    pub from: usize,
    pub steps: usize,
}

// A certificate's bytes, and the place of the next one to be read.
#[derive(Clone, Copy)]
pub struct Reader<'a> {
    src: &'a [u8],
    at: usize,
}

// So many items, and the reader after them.
#[derive(Clone, Copy)]
struct Run<'a> {
    items: usize,
    end: Reader<'a>,
}

impl<'a> Reader<'a> {
    // A reader at the first byte.
    pub fn new(src: &'a [u8]) -> Reader<'a>
        ensures { (result.src ≡ src.entry) × (result.at ≡ 0) }
    {
        Reader { src, at: 0 }
    }

    // The reader n bytes on.
    pub fn past(self, n: usize) -> Reader<'a>
        requires { self.at + n < 2 ^ 64 }
        ensures { (result.src ≡ self.entry.src) × (result.at ≡ self.entry.at + n) }
    {
        Reader {
            src: self.src,
            at: self.at + n,
        }
    }

    // How many bytes are left.
    fn left(self) -> usize
        requires { self.at ≤ length self.src.now }
        ensures { result ≡ length self.entry.src.now - self.entry.at }
    {
        self.src.len() - self.at
    }

    // Whether a command stands here, with n bytes in all.
    pub fn has(self, command: u8, n: usize) -> bool
        requires { (self.at ≤ length self.src.now) × (0 < n) }
        ensures { result ≡ model.has (drop self.entry.at self.entry.src.now) command n }
    {
        n <= self.left() && self.src[self.at] == command
    }

    // The operand of two or four bytes here.
    pub fn operand(self, width: usize) -> u32
        requires { (self.at + width ≤ length self.src.now) × ((width ≡ 2) ⊎ (width ≡ 4)) }
        ensures { result ≡ number (part self.entry.src.now self.entry.at width) }
    {
        if width == 2 {
            return words::read_u16(self.src, self.at) as u32;
        }
        words::read_u32(self.src, self.at)
    }

    // The reader after n potentials, if so many stand here.
    fn potentials(self, n: usize) -> Option<Reader<'a>>
        requires { self.at ≤ length self.src.now }
        ensures { PotentialsRead self.entry.src.now self.entry.at n result }
    {
        let mut reader = self;
        for _ in 0..n {
            if !reader.has(0x12, POTENTIAL_SIZE) {
                return None;
            }
            reader = reader.past(POTENTIAL_SIZE);
        }
        Some(reader)
    }

    // The steps of this size that stand here, at most so many as a cycle has.
    fn steps(self, size: usize) -> Option<Run<'a>>
        requires { self.at ≤ length self.src.now }
        ensures { (e : edition_model.Edition) → size ≡ model.step_width e → StepsRead e self.entry.src.now self.entry.at result }
    {
        let mut reader = self;
        for i in 0..MAX_STEPS {
            if !reader.has(0x14, 1) {
                return Some(Run {
                    items: i,
                    end: reader,
                });
            }
            if reader.left() < size {
                return None;
            }
            reader = reader.past(size);
        }
        Some(Run {
            items: MAX_STEPS,
            end: reader,
        })
    }

    // Whether the end stands here, and nothing after it.
    fn is_end(self) -> bool
        requires { self.at ≤ length self.src.now }
        ensures { result ≡ model.is_end (drop self.entry.at self.entry.src.now) }
    {
        self.left() == 1 && self.has(0x15, 1)
    }

    // The certificate whose cycle starts here, after so many potentials.
    fn cycle(self, edition: Edition, fraction: Fraction, count: usize) -> Option<Parts>
        requires { MasksLegible edition × (self.at ≡ head_size + potential_size * count) × (self.at ≤ length self.src.now) × (fraction.q ≡ 0 → ⊥) }
        ensures { result ≡ in_place (cycle_from (edition_of edition) self.entry.src.now fraction.p fraction.q count self.entry.at) }
    {
        if !self.has(0x13, CYCLE_SIZE) {
            return None;
        }
        let node = self.past(1).operand(2) as usize;
        let from = self.past(CYCLE_SIZE);
        let Run { items, end } = from.steps(step_size(edition))?;
        if items == 0 || !end.is_end() {
            return None;
        }
        Some(Parts {
            fraction,
            count,
            node,
            from: from.at,
            steps: items,
        })
    }
}

// The bytes of a step in an edition, with its command.
fn step_size(edition: Edition) -> usize
    requires { MasksLegible edition }
    ensures { result ≡ model.step_width (edition_of edition) }
{
    2 + edition.mask_width * Node::MAX_TASKS
}

// The certificate that the bytes of an edition are.
pub fn read_in(edition: Edition, s: &[u8]) -> Option<Parts>
    requires { MasksLegible edition }
    ensures { result ≡ in_place (model.read_certificate_in (edition_of edition) s.now) }
{
    let head = Reader::new(s);
    if !head.has(0x11, HEAD_SIZE) {
        return None;
    }
    let p = head.past(1).operand(4);
    let q = head.past(5).operand(4);
    let fraction = Fraction { p, q };
    let n = head.past(9).operand(2) as usize;
    if n < 1 || MAX_NODES < n {
        return None;
    }
    let end = head.past(HEAD_SIZE).potentials(n)?;
    if q != 0 {
        return end.cycle(edition, fraction, n);
    }
    if !end.is_end() {
        return None;
    }
    Some(Parts {
        fraction,
        count: n,
        node: 0,
        from: end.at,
        steps: 0,
    })
}

// The certificate that the bytes of the long-read edition are.
pub fn read(s: &[u8]) -> Option<Parts>
    ensures { result ≡ in_place (model.read_certificate s.now) }
{
    read_in(Edition::long_reads(), s)
}

// The potential i of a certificate.
pub fn potential(s: &[u8], i: usize) -> i64
    requires { HasPotential s.now i }
    ensures { (c : model.Certificate) → model.read_certificate s.now ≡ some c → result ≡ check_model.potential_at c.potentials i }
{
    words::read_i64(s, HEAD_SIZE + POTENTIAL_SIZE * i + 1)
}

// The label of the step j.
pub fn step_label(s: &[u8], parts: Parts, j: usize) -> u8
    requires { IsRead long_reads s.now parts × (j < parts.steps) }
    ensures { result ≡ (step_at (certificate_of long_reads s.now parts).steps j).label }
{
    s[parts.from + STEP_SIZE * j + 1]
}

// The masks of the step j, packed.
pub fn step_masks(s: &[u8], parts: Parts, j: usize) -> u64
    requires { IsRead long_reads s.now parts × (j < parts.steps) }
    ensures { unpacked result ≡ (step_at (certificate_of long_reads s.now parts).steps j).masks }
{
    words::read_u64(s, parts.from + STEP_SIZE * j + 2)
}
