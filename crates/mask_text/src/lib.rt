// The mask table, made from its order alone, and its text.
#![tactic(auto)]

ghost use Rattle.std.specs.Prelude.{◌≡◌, [], ◌∷◌, ◌+◌, ◌≤◌, ◌<◌, eqb, length};
ghost use Rattle.model.specs.Bytes.{Put};
ghost use Rattle.model.specs.Limits.{max_window};
ghost use Rattle.model.specs.Lists.{keep, flat_map, ones};
ghost use Rattle.model.specs.Masks.{mask_count, group, mask_table};
ghost use Rattle.model.specs.Text.{number_line, mask_text};
ghost use Rattle.io.specs.Counts.{IsPrefixLen};
ghost use Rattle.mask_text.specs.Room.{mask_room};

use node::Node;

// How many masks there are.
const COUNT: usize = 1 << Node::MAX_WINDOW;

// Lists a mask at a place if it has c ones, and gives the place after it.
fn list_mask(table: &mut [u16], at: usize, m: u16, c: u32) -> usize
    requires { (m < mask_count) × (at + length (keep (λ k. eqb (ones max_window k) c) (m ∷ [])) ≤ length table.old) }
    ensures { Put table.old table.new at (keep (λ k. eqb (ones max_window k) c) (m ∷ [])) result }
{
    if m.count_ones() != c {
        return at;
    }
    table[at] = m;
    at + 1
}

// Lists the masks of c ones from a place on, upward, and gives the place after them.
fn list_group(table: &mut [u16], at: usize, c: u32) -> usize
    requires { at + length (group c) ≤ length table.old }
    ensures { Put table.old table.new at (group c) result }
{
    let mut end = at;
    for m in 0..COUNT {
        end = list_mask(table, end, m as u16, c);
    }
    end
}

// The table: fewest ones first, upward in each group.
fn make_table() -> [u16; COUNT]
    ensures { result ≡ mask_table }
{
    let mut table = [0u16; COUNT];
    let mut end = 0;
    for c in 0..=Node::MAX_WINDOW {
        end = list_group(&mut table, end, c as u32);
    }
    table
}

// Writes the numbers of a table, one on each line, and gives the place after them.
fn put_lines(out: &mut [u8], table: &[u16; COUNT]) -> usize
    requires { length (flat_map number_line table.now) ≤ length out.old }
    ensures { Put out.old out.new 0 (flat_map number_line table.now) result }
{
    let mut end = 0;
    for &m in table {
        end = text::put_number_line(out, end, u64::from(m));
    }
    end
}

// Writes the table's text, and gives its length.
pub fn put_masks(out: &mut [u8]) -> usize
    requires { mask_room ≤ length out.old }
    ensures put { Put out.old out.new 0 mask_text result }
    ensures prefix_len { IsPrefixLen result out.new }
{
    let table = make_table();
    put_lines(out, &table)
}
