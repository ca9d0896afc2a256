// The steps of a round and the two ciphers (FIPS 197 5.1 and 5.3), under an expanded key and tables that are lent.

#![tactic(auto)]

ghost use Rattle.std.specs.Prelude.{◌≡◌, [], ◌∷◌, ◌++◌, map, ◌+◌, ◌*◌, ◌<◌, ◌≤◌, length};
ghost use Rattle.fips197.specs.Tables as Tables;
ghost use Rattle.fips197.specs.Cipher as Cipher;
ghost use Rattle.fips197.specs.Products as Products;

use products::column;
use products::field::double;
use products::packed::eight;

// The table's entry at x.
#[tactic(auto, unfolding(fips197::specs::Tables::look))]
pub fn look(table: &[u8; 256], x: u8) -> u8
    ensures { result ≡ Tables.look table.now x }
{
    table[usize::from(x)]
}

// Four columns, one after the other.
pub fn joined(a: [u8; 4], b: [u8; 4], c: [u8; 4], d: [u8; 4]) -> [u8; 16]
    ensures { result ≡ a ++ b ++ c ++ d }
{
    [
        a[0], a[1], a[2], a[3], b[0], b[1], b[2], b[3], c[0], c[1], c[2], c[3], d[0], d[1], d[2],
        d[3],
    ]
}

// SubBytes or InvSubBytes, by the table; of a word of the key expansion, SubWord.
pub fn sub_bytes<const N: usize>(table: &[u8; 256], mut s: [u8; N]) -> [u8; N]
    ensures { result ≡ map (Tables.look table.now) s.entry }
{
    for x in &mut s {
        *x = look(table, *x);
    }
    s
}

// ShiftRows: row r moves left by r columns.
#[tactic(auto, unfolding(fips197::specs::Cipher::shift, fips197::specs::Cipher::shift_rows))]
pub fn shift_rows(s: [u8; 16]) -> [u8; 16]
    ensures { result ≡ Cipher.shift_rows s }
{
    [
        s[0], s[5], s[10], s[15], s[4], s[9], s[14], s[3], s[8], s[13], s[2], s[7], s[12], s[1],
        s[6], s[11],
    ]
}

// InvShiftRows: row r moves right by r columns.
// kept: the places written out, as in shift_rows: places computed modulo 16 would be less plain, in the rounds of every block
#[tactic(auto, unfolding(fips197::specs::Cipher::shift, fips197::specs::Cipher::inv_shift_rows))]
pub fn inv_shift_rows(s: [u8; 16]) -> [u8; 16]
    ensures { result ≡ Cipher.inv_shift_rows s }
{
    [
        s[0], s[13], s[10], s[7], s[4], s[1], s[14], s[11], s[8], s[5], s[2], s[15], s[12], s[9],
        s[6], s[3],
    ]
}

// A row of MixColumns: 2 a + 3 b + c + d, with one doubling.
#[tactic(auto, using(fips197::proofs::Columns::mix_row), unfolding(fips197::specs::Field::xor))]
fn mix_row(a: u8, b: u8, c: u8, d: u8) -> u8
    ensures { result ≡ Cipher.row 2 3 1 1 a b c d }
{
    double(a ^ b) ^ b ^ c ^ d
}

#[tactic(auto, unfolding(fips197::specs::Cipher::columns, fips197::specs::Cipher::mix_columns))]
fn mix_column(a: u8, b: u8, c: u8, d: u8) -> [u8; 4]
    ensures { result ≡ Cipher.mix_columns (a ∷ b ∷ c ∷ d ∷ []) }
{
    [
        mix_row(a, b, c, d),
        mix_row(b, c, d, a),
        mix_row(c, d, a, b),
        mix_row(d, a, b, c),
    ]
}

// MixColumns.
#[tactic(auto, using(fips197::proofs::Steps::by_columns), unfolding(fips197::specs::Cipher::columns, fips197::specs::Cipher::mix_columns))]
fn mix_columns(s: [u8; 16]) -> [u8; 16]
    ensures { result ≡ Cipher.mix_columns s }
{
    joined(
        mix_column(s[0], s[1], s[2], s[3]),
        mix_column(s[4], s[5], s[6], s[7]),
        mix_column(s[8], s[9], s[10], s[11]),
        mix_column(s[12], s[13], s[14], s[15]),
    )
}

// A column of InvMixColumns, from its bytes' shares.
fn inv_mix_column(shares: &[u32; 256], a: u8, b: u8, c: u8, d: u8) -> [u8; 4]
    requires { Products.Shares shares.now }
    ensures { result ≡ Cipher.inv_mix_columns (a ∷ b ∷ c ∷ d ∷ []) }
{
    column(shares, a, b, c, d).to_le_bytes()
}

// InvMixColumns.
// kept: four calls as in mix_columns: a function over either step would need a contract on closures, longer than the calls
#[tactic(auto, using(fips197::proofs::Steps::by_columns), unfolding(fips197::specs::Cipher::columns, fips197::specs::Cipher::inv_mix_columns))]
pub fn inv_mix_columns(shares: &[u32; 256], s: [u8; 16]) -> [u8; 16]
    requires { Products.Shares shares.now }
    ensures { result ≡ Cipher.inv_mix_columns s }
{
    joined(
        inv_mix_column(shares, s[0], s[1], s[2], s[3]),
        inv_mix_column(shares, s[4], s[5], s[6], s[7]),
        inv_mix_column(shares, s[8], s[9], s[10], s[11]),
        inv_mix_column(shares, s[12], s[13], s[14], s[15]),
    )
}

// The n-th sixteen bytes of w added to s (5.1.4), eight bytes at once.
// kept: two sums of u64: one of u128 was tried, and a stream's blocks took 4 to 7 in 100 longer to encrypt
pub fn add_sixteen(w: &[u8], n: usize, s: [u8; 16]) -> [u8; 16]
    requires { 16 * n + 16 ≤ length w.now }
    ensures { result ≡ Cipher.add_round_key s (Cipher.round_key w.now n) }
{
    let mut t = [0u8; 16];
    octets::put_le64(&mut t, 0, eight(&s, 0) ^ eight(w, 16 * n));
    octets::put_le64(&mut t, 8, eight(&s, 8) ^ eight(w, 16 * n + 8));
    t
}

// AddRoundKey with round key n.
pub fn add_round_key(w: &[u8; 240], n: usize, s: [u8; 16]) -> [u8; 16]
    requires { n ≤ 14 }
    ensures { result ≡ Cipher.add_round_key s (Cipher.round_key w.now n) }
{
    add_sixteen(w, n, s)
}

// Round n of the cipher, before the last.
#[tactic(auto, unfolding(fips197::specs::Cipher::sub_bytes, fips197::specs::Cipher::round))]
fn round(w: &[u8; 240], n: usize, table: &[u8; 256], s: [u8; 16]) -> [u8; 16]
    requires { (n ≤ 14) × (table.now ≡ Tables.sbox) }
    ensures { result ≡ Cipher.round (Cipher.round_key w.now) n s }
{
    add_round_key(w, n, mix_columns(shift_rows(sub_bytes(table, s))))
}

// Round n of the inverse cipher, before the last.
// kept: beside round, and inv_cipher beside cipher: FIPS 197 5.3 has the steps and the round keys in another order than 5.1
#[tactic(auto, unfolding(fips197::specs::Cipher::inv_sub_bytes, fips197::specs::Cipher::inv_round))]
fn inv_round(
    w: &[u8; 240],
    n: usize,
    table: &[u8; 256],
    shares: &[u32; 256],
    s: [u8; 16],
) -> [u8; 16]
    requires { (n ≤ 14) × (table.now ≡ Tables.inv_sbox) × (Products.Shares shares.now) }
    ensures { result ≡ Cipher.inv_round (Cipher.round_key w.now) n s }
{
    inv_mix_columns(
        shares,
        add_round_key(w, n, sub_bytes(table, inv_shift_rows(s))),
    )
}

// The cipher of `rounds` rounds under the expanded key w (5.1), with the substitution table lent.
#[tactic(auto, using(fips197::proofs::Steps::rounds_none, fips197::proofs::Steps::rounds_more), unfolding(fips197::specs::Cipher::cipher, fips197::specs::Cipher::sub_bytes))]
pub fn cipher(w: &[u8; 240], rounds: usize, table: &[u8; 256], block: [u8; 16]) -> [u8; 16]
    requires { (0 < rounds) × (rounds ≤ 14) × (table.now ≡ Tables.sbox) }
    ensures { result ≡ Cipher.cipher (Cipher.round_key w.now) rounds block }
{
    let mut s = add_round_key(w, 0, block);
    for n in 1..rounds {
        let t = round(w, n, table, s);
        s = t;
    }
    add_round_key(w, rounds, shift_rows(sub_bytes(table, s)))
}

// The inverse cipher of `rounds` rounds under the expanded key w (5.3), with the inverse table and the shares lent.
#[tactic(auto, using(fips197::proofs::Steps::inv_rounds_less), unfolding(fips197::specs::Cipher::inv_cipher, fips197::specs::Cipher::inv_sub_bytes, fips197::specs::Cipher::inv_rounds))]
pub fn inv_cipher(
    w: &[u8; 240],
    rounds: usize,
    table: &[u8; 256],
    shares: &[u32; 256],
    block: [u8; 16],
) -> [u8; 16]
    requires rounds { (0 < rounds) × (rounds ≤ 14) }
    requires tables { (table.now ≡ Tables.inv_sbox) × (Products.Shares shares.now) }
    ensures { result ≡ Cipher.inv_cipher (Cipher.round_key w.now) rounds block }
{
    let mut s = add_round_key(w, rounds, block);
    for n in (1..rounds).rev() {
        let t = inv_round(w, n, table, shares, s);
        s = t;
    }
    add_round_key(w, 0, sub_bytes(table, inv_shift_rows(s)))
}
