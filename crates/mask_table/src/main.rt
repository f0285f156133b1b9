// Writes the mask table in its order, fewest ones first, one decimal number a line.
#![tactic(auto)]

use host::STDOUT;

fn main() {
    let mut text = [0u8; 4096];
    let n = mask_text::put_masks(&mut text);
    io::write_all(STDOUT, &text[..n]);
}
