// The words of the two ciphers, laid once a stream in a table for each row: in its row's a byte finds the share of its substitution,
// moved to that row (FIPS 197 5.1.3, 5.3.3).
ghost use Rattle.std.specs.Prelude.{◌≡◌, ℕ};
ghost use Rattle.octets.specs.Octets.{Bytes};
ghost use Rattle.fips197.specs.Tables as Tables;
ghost use Rattle.fips197.specs.Products as Products;
ghost use Rattle.aes_stream.specs.Words as Words;

use products::field::double;
use products::packed::moved;
use products::share;

// A byte's share of a column of MixColumns: 2, 1, 1 and 3 times the byte.
#[tactic(auto, using(fips197::proofs::Shares::mix_share), unfolding(octets::specs::Octets::le, fips197::specs::Field::xor))]
fn mixed(x: u8) -> u32
    ensures { result ≡ Products.share 2 3 1 1 x }
{
    let y = double(x);
    u32::from_le_bytes([y, x, x, y ^ x])
}

// The shares of all bytes.
fn shares() -> [u32; 256]
    ensures { Products.Laid 2 3 1 1 (λ x. x) result }
{
    let mut words = [0u32; 256];
    for (i, w) in words.iter_mut().enumerate() {
        *w = mixed(i as u8);
    }
    words
}

// The shares, each at the byte that is substituted by its own: once for each row, in four tables one behind the other. They are written
// where they are to lie: 4,096 bytes that are returned lie on the stack twice.
fn substituted(table: &[u8; 256], shares: &[u32; 256], words: &mut [u32; 1024])
    ensures { (p q s t : ℕ) → Bytes table.now → Products.Laid p q s t (λ x. x) shares.now → Words.Rows p q s t (Tables.look table.now) words.new }
{
    for (i, w) in words.iter_mut().enumerate() {
        *w = moved((i / 256) as u32, share(shares, table[i % 256]));
    }
}

// The words of the cipher, from the substitution table, written over others.
pub fn lay_forward(table: &[u8; 256], words: &mut [u32; 1024])
    requires { table.now ≡ Tables.sbox }
    ensures { Words.Forward words.new }
{
    let mix = shares();
    substituted(table, &mix, words);
}

// kept: beside lay_forward: each is one call of what is common to both
// The words of the inverse cipher, from the inverse table and the shares of InvMixColumns, written over others.
pub fn lay_inverse(table: &[u8; 256], shares: &[u32; 256], words: &mut [u32; 1024])
    requires { (table.now ≡ Tables.inv_sbox) × Products.Shares shares.now }
    ensures { Words.Inverse words.new }
{
    substituted(table, shares, words);
}
