// Rows of bytes in lent memory, numbered in order and found by their contents.
#![tactic(auto)]

ghost use Rattle.std.specs.Prelude.{◌≡◌, ℕ, ◌+◌, ◌*◌, ◌^◌, ◌≤◌, ◌<◌, length, Some};
ghost use Rattle.model.specs.Bytes.{bytes, overwrite};
ghost use Rattle.model.specs.Lists.{same_numbers};
ghost use Rattle.store.specs.Store.{max_rows, hashes, store_bytes, row_at, rows_in, index_in, index_or, Distinct, hash_base, hash_step, hash_of, entry_at, Indexed, Cleared, Appended, Kept};

use node::Node;

// The bytes of a row, a node's cells, two of its pattern and one of its state; the most rows, and the number of hashes.
pub const ROW_BYTES: usize = Node::CELLS + 3;

pub const MAX_ROWS: usize = Node::MAX_NODES;

const HASHES: usize = 1024;

// The words of four bytes in a row's cells.
const CELL_WORDS: usize = Node::CELLS / 4;

// The rows stand first; then two bytes for each hash; then two bytes for each row.
const BUCKETS: usize = ROW_BYTES * MAX_ROWS;

const CHAIN: usize = BUCKETS + 2 * HASHES;

pub const STORE_BYTES: usize = CHAIN + 2 * MAX_ROWS;

// A row's index, and the number of rows.
#[derive(Clone, Copy)]
pub struct Place {
    pub index: usize,
    pub count: usize,
}

// Makes the index that of no rows.
pub fn clear_index(m: &mut [u8])
    requires { store_bytes ≤ length m.old }
    ensures { Cleared m.old m.new }
{
    m[BUCKETS..BUCKETS + 2 * HASHES].fill(0);
}

// A row's hash: the cells in words of four bytes, then the pattern with the state, and the highest bits of what they give.
fn hash(row: &[u8; ROW_BYTES]) -> usize
    ensures { (result ≡ hash_of row.now) × (result < hashes) }
{
    let mut h = 0;
    for k in 0..CELL_WORDS {
        h = hash_step(h, words::read_u32(row, 4 * k));
    }
    let pattern = u32::from(words::read_u16(row, Node::CELLS));
    let last = pattern * 256 + u32::from(row[Node::CELLS + 2]);
    let mixed = hash_step(hash_step(h, last), 0);
    (mixed / 4194304) as usize
}

// The hash of some words and one more.
fn hash_step(h: u64, w: u32) -> u64
    requires { h < hash_base }
    ensures { (result ≡ hash_step h w) × (result < hash_base) }
{
    (h * 2654435769 + u64::from(w)) % 4294967296
}

// The j-th row.
pub fn row(m: &[u8], j: usize) -> [u8; ROW_BYTES]
    requires { (j < max_rows) × (store_bytes ≤ length m.now) }
    ensures { result ≡ row_at m.now j }
{
    let at = ROW_BYTES * j;
    let mut out = [0u8; ROW_BYTES];
    out.copy_from_slice(&m[at..at + ROW_BYTES]);
    out
}

// Whether the j-th row is this one.
pub fn same_row(m: &[u8], j: usize, row: &[u8; ROW_BYTES]) -> bool
    requires { (j < max_rows) × (store_bytes ≤ length m.now) }
    ensures { result ≡ same_numbers (row_at m.now j) row.now }
{
    let at = ROW_BYTES * j;
    m[at..at + ROW_BYTES] == row[..]
}

// The number of the row equal to this one, among n distinct rows, if there is one. Memory and number are no struct, since the rows are the
// front of lent memory that others have the rest of.
pub fn find(m: &[u8], n: usize, row: &[u8; ROW_BYTES]) -> Option<usize>
    requires { Indexed m.now n × Distinct (rows_in m.now n) }
    ensures index { index_or n result ≡ index_in (rows_in m.now n) row.now }
    ensures below { (i : ℕ) → result ≡ Some i → i < n }
{
    // A walk down a chain: each entry is the number of the row before with this hash and 1, and no count tells where it ends.
    let mut next = entry(m, BUCKETS, hash(row));
    while let Some(j) = next.checked_sub(1) {
        if same_row(m, j, row) {
            return Some(j);
        }
        next = entry(m, CHAIN, j);
    }
    None
}

// Appends a row to the n that are there.
pub fn append(m: &mut [u8], n: usize, row: &[u8; ROW_BYTES])
    requires { Indexed m.old n × (n < max_rows) }
    ensures { Appended m.old m.new n row.now }
{
    let h = hash(row);
    let before = entry(m, BUCKETS, h);
    let at = ROW_BYTES * n;
    m[at..at + ROW_BYTES].copy_from_slice(row);
    put_entry(m, CHAIN, n, before);
    put_entry(m, BUCKETS, h, n + 1);
}

// The place of a row among n distinct ones. A row that is not there is appended, if there is room.
pub fn find_or_append(m: &mut [u8], n: usize, row: &[u8; ROW_BYTES]) -> Option<Place>
    requires { Indexed m.old n × Distinct (rows_in m.old n) }
    ensures { Kept m.old m.new n row.now result }
{
    if let Some(index) = find(m, n, row) {
        return Some(Place { index, count: n });
    }
    if n < MAX_ROWS {
        append(m, n, row);
        return Some(Place {
            index: n,
            count: n + 1,
        });
    }
    None
}

// The i-th number of the table at a place.
fn entry(m: &[u8], at: usize, i: usize) -> usize
    requires { (at + 2 * i + 2 ≤ store_bytes) × (store_bytes ≤ length m.now) }
    ensures { result ≡ entry_at m.now at i }
{
    usize::from(words::read_u16(m, at + 2 * i))
}

// Writes the i-th number of the table at a place.
fn put_entry(m: &mut [u8], at: usize, i: usize, v: usize)
    requires { (at + 2 * i + 2 ≤ store_bytes) × (store_bytes ≤ length m.old) × (v < 256 ^ 2) }
    ensures { m.new ≡ overwrite m.old (at + 2 * i) (bytes 2 v) }
{
    words::write_u16(m, at + 2 * i, v as u16);
}
