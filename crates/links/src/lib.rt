// What a search for distances has found, in lent memory behind the store: a link to each node, and the steps of a cycle.
#![tactic(auto)]

ghost use Rattle.std.specs.Prelude.{◌≡◌, ◌+◌, ◌≤◌, ◌<◌, length};
ghost use Rattle.model.specs.Limits.{max_nodes, max_steps};
ghost use Rattle.theory.specs.Search.{Before};
ghost use Rattle.links.specs.Links.{links_end, link_in, taken_in, state_in, byte_of, mark_of, marked, PutsMark, PutsStep, Begins, Climbs, WayUp, Closes};

use node::Node;

// The marks of a node: no walk to it is known, its edges are still to be tried, they have been tried.
#[derive(Clone, Copy, Debug, PartialEq, Eq)]
pub enum Mark {
    Unknown = 0,
    Waiting = 1,
    Tried = 2,
}

impl Mark {
    // Its byte in memory.
    fn byte(self) -> u8
        ensures { result ≡ byte_of self }
    {
        self as u8
    }
}

impl From<u8> for Mark {
    // The mark that a byte stands for.
    fn from(byte: u8) -> Mark
        ensures { result ≡ mark_of byte }
    {
        match byte {
            0 => Mark::Unknown,
            1 => Mark::Waiting,
            _ => Mark::Tried,
        }
    }
}

// A link: the distance of a node, its parent, the label that leads from there to it, and a mark.
#[derive(Clone, Copy, Debug, PartialEq, Eq)]
pub struct Link {
    pub distance: i64,
    pub parent: usize,
    pub label: u8,
    pub mark: Mark,
}

// A step of a cycle: the node that it leaves, and its label.
#[derive(Clone, Copy, Debug, PartialEq, Eq)]
pub struct Taken {
    pub node: usize,
    pub label: u8,
}

// The links stand behind the store, and then the steps.
const LINK_BYTES: usize = 12;

const STEP_BYTES: usize = 3;

const LINKS: usize = store::STORE_BYTES;

const STEPS: usize = LINKS + LINK_BYTES * Node::MAX_NODES;

// The link to the node v.
pub fn link_to(m: &[u8], v: usize) -> Link
    requires { (v < max_nodes) × (links_end ≤ length m.now) }
    ensures { result ≡ link_in m.now v }
{
    let at = LINKS + LINK_BYTES * v;
    let distance = words::read_i64(m, at);
    let parent = words::read_u16(m, at + 8) as usize;
    Link {
        distance,
        parent,
        label: m[at + 10],
        mark: Mark::from(m[at + 11]),
    }
}

// Writes the link to the node v.
pub fn put_link(m: &mut [u8], v: usize, link: Link)
    requires { (v < max_nodes) × (links_end ≤ length m.old) × (link.parent < max_nodes) }
    ensures { PutsMark v link m.old m.new }
{
    let at = LINKS + LINK_BYTES * v;
    words::write_i64(m, at, link.distance);
    words::write_u16(m, at + 8, link.parent as u16);
    m[at + 10] = link.label;
    m[at + 11] = link.mark.byte();
}

// Marks the node v.
pub fn set_mark(m: &mut [u8], v: usize, mark: Mark)
    requires { (v < max_nodes) × (links_end ≤ length m.old) }
    ensures { PutsMark v (marked mark (link_in m.old v)) m.old m.new }
{
    m[LINKS + LINK_BYTES * v + 11] = mark.byte();
}

// The step i of the cycle.
pub fn step_at(m: &[u8], i: usize) -> Taken
    requires { (i < max_steps) × (links_end ≤ length m.now) }
    ensures { result ≡ taken_in m.now i }
{
    let at = STEPS + STEP_BYTES * i;
    let node = words::read_u16(m, at) as usize;
    Taken {
        node,
        label: m[at + 2],
    }
}

// Writes the step i of the cycle.
pub fn put_step(m: &mut [u8], i: usize, step: Taken)
    requires { (i < max_steps) × (links_end ≤ length m.old) × (step.node < max_nodes) }
    ensures { PutsStep i step m.old m.new }
{
    let at = STEPS + STEP_BYTES * i;
    words::write_u16(m, at, step.node as u16);
    m[at + 2] = step.label;
}

// Makes the start node the only one that is known, at the distance 0.
pub fn begin(m: &mut [u8])
    requires { links_end ≤ length m.old }
    ensures { Begins m.old m.new }
{
    words::fill(m, LINKS, LINK_BYTES * Node::MAX_NODES, 0);
    put_link(
        m,
        0,
        Link {
            distance: 0,
            parent: 0,
            label: 0,
            mark: Mark::Waiting,
        },
    );
}

// How many steps above u v stands on the way up by the parents, if it is on it.
pub fn way_up(m: &[u8], u: usize, v: usize) -> Option<usize>
    requires { Climbs m.now u }
    ensures { WayUp m.now u v result }
{
    let mut at = u;
    let mut j = 0;
    // No `for`: the way is as long as the parents make it.
    while at != v {
        if at == 0 {
            return None;
        }
        at = link_to(m, at).parent;
        j += 1;
    }
    Some(j)
}

// Writes the cycle that a label closes from u to the node j steps above it: the steps down to u, and then that one.
pub fn put_cycle(m: &mut [u8], u: usize, label: u8, j: usize)
    requires { Climbs m.old u × Before (state_in m.old).parent 0 j u }
    ensures { Closes u label j m.old m.new }
{
    let mut at = u;
    for left in (0..j).rev() {
        let link = link_to(m, at);
        put_step(
            m,
            left,
            Taken {
                node: link.parent,
                label: link.label,
            },
        );
        at = link.parent;
    }
    put_step(m, j, Taken { node: u, label });
}
