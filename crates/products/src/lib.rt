// Multiplication by the factors of InvMixColumns (FIPS 197 4.2, 5.3.3), looked up: a table of 256 products for each of 9, 11, 13 and
// 14, and the table of words laid from the four, in which a byte finds its whole share of a column at once. `column` sums the words of
// any matrix (fips197/proofs/Shares.antt, `looked_up`).
//
// Lay the words once and lend them: laying copies the four tables.

#![tactic(auto)]

ghost use Rattle.std.specs.Prelude.{◌≡◌, get_or};
ghost use Rattle.fips197.specs.Products as Products;

// kept: four tables that differ in their factor: request 2026-03 asks for each, and Shares.antt `rule` is proved of each written entry
mod by_11;
mod by_13;
mod by_14;
mod by_9;
pub mod field;
pub mod packed;

use packed::moved;

// The words of four tables' entries, those of the first lowest.
#[tactic(auto, unfolding(fips197::specs::Products::entry, octets::specs::Octets::le))]
fn laid(first: &[u8; 256], second: &[u8; 256], third: &[u8; 256], fourth: &[u8; 256]) -> [u32; 256]
    ensures { result ≡ Products.laid first.now second.now third.now fourth.now }
{
    let mut words = [0u32; 256];
    for (i, w) in words.iter_mut().enumerate() {
        *w = u32::from_le_bytes([first[i], second[i], third[i], fourth[i]]);
    }
    words
}

// Each byte's share of a column of InvMixColumns.
pub fn shares() -> [u32; 256]
    ensures { Products.Shares result }
{
    // each table as it is lent: a local of its own would be copied on the stack once more
    laid(&by_14::BY_14, &by_9::BY_9, &by_13::BY_13, &by_11::BY_11)
}

// The word at x.
pub fn share(words: &[u32; 256], x: u8) -> u32
    ensures { result ≡ get_or words.now x 0 }
{
    words[usize::from(x)]
}

// The words at a column's four bytes, each moved to the byte's row, summed: the mixed column, for the words of a matrix.
#[tactic(auto, unfolding(fips197::specs::Field::xor, fips197::specs::Products::column_sum))]
pub fn column(words: &[u32; 256], a: u8, b: u8, c: u8, d: u8) -> u32
    ensures { result ≡ Products.column_sum words.now a b c d }
{
    share(words, a)
        ^ moved(1, share(words, b))
        ^ moved(2, share(words, c))
        ^ moved(3, share(words, d))
}
