// AES for streams: the cipher of FIPS 197 5.1 and the inverse cipher of 5.3, a column of a round at a time.
//
// A byte that is looked up finds its substitution already multiplied by the four factors of the matrix, as a word, in the table of its
// row: the four words of a column sum to the column, and the round key's word is added before the sum is taken apart into bytes.
// For the inverse cipher the order of InvMixColumns and AddRoundKey is turned round, so its round keys go through InvMixColumns first
// (5.3.5, the equivalent inverse cipher).
//
//     let table = aes::tables::SBOX;
//     let mut words = [0u32; 1024];
//     aes_stream::lay_forward(&table, &mut words);
//     let encryption = aes_stream::Encryption { w: &w, rounds, table: &table, words: &words };
//     let sealed = encryption.block(block);
//
// Lay the words and mix the keys once a stream, and lend them: for a lone block that costs more than it saves, and `aes_rounds` has the
// ciphers that do without.
//
// Warning: as in `aes`, the time that a look-up takes can betray the byte to whoever shares the processor's cache.

#![tactic(auto)]

ghost use Rattle.std.specs.Prelude.{◌≡◌, ◌≤◌};
ghost use Rattle.fips197.specs.Cipher as Cipher;
ghost use Rattle.fips197.specs.Products as Products;

mod decryption;
mod encryption;
mod rounds;
mod words;

use aes_rounds::inv_mix_columns;
pub use decryption::Decryption;
pub use encryption::Encryption;
pub use words::{lay_forward, lay_inverse};

// Round key n.
#[tactic(auto, unfolding(fips197::specs::Cipher::round_key))]
fn key(w: &[u8; 240], n: usize) -> [u8; 16]
    requires { n ≤ 14 }
    ensures { result ≡ Cipher.round_key w.now n }
{
    octets::part(w, 16 * n)
}

// Every round key through InvMixColumns.
#[tactic(auto, using(crate::proofs::Keys::done_none, crate::proofs::Keys::done_more, crate::proofs::Keys::done_all))]
pub fn mixed(w: &[u8; 240], shares: &[u32; 256]) -> [u8; 240]
    requires { Products.Shares shares.now }
    ensures { result ≡ Cipher.inv_mix_columns w.now }
{
    let mut m = [0u8; 240];
    for n in 0..15 {
        let k = inv_mix_columns(shares, key(w, n));
        octets::copy(&k, 0, 16, &mut m, 16 * n);
    }
    m
}
