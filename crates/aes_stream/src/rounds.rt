// A round of either cipher between the first AddRoundKey and the last round.
//
// A byte finds what it adds to its column in the table of its row, so that no word is moved once it is laid: the words decide which
// substitution and which matrix it is, and ShiftRows or InvShiftRows comes before (FIPS 197 5.1, 5.3.5).
ghost use Rattle.std.specs.Prelude.{◌≡◌, [], ◌∷◌, map, ℕ, ◌+◌, ◌*◌, ◌<◌, ◌≤◌, get_or, take, drop};
ghost use Rattle.fips197.specs.Cipher as Cipher;
ghost use Rattle.fips197.specs.Products.{column_sum};
ghost use Rattle.aes_stream.specs.Words.{Rows};

use aes_rounds::joined;
use products::packed::four;

// The word at x in the table of row k.
fn share(words: &[u32; 1024], k: usize, x: u8) -> u32
    requires { k < 4 }
    ensures { result ≡ get_or words.now (256 * k + x) 0 }
{
    words[256 * k + usize::from(x)]
}

// The words at a column's four bytes, each out of its row's table, summed: what the first table's words sum to once they are moved.
fn summed(words: &[u32; 1024], a: u8, b: u8, c: u8, d: u8) -> u32
    ensures { (p q s t : ℕ) (sub : ℕ → ℕ) → Rows p q s t sub words.now → result ≡ column_sum (take 256 words.now) a b c d }
{
    share(words, 0, a) ^ share(words, 1, b) ^ share(words, 2, c) ^ share(words, 3, d)
}

// A column substituted and mixed, with the key's four bytes at `at` added: they come first, so that the next round waits for one sum
// fewer.
fn column(words: &[u32; 1024], w: &[u8; 240], at: usize, a: u8, b: u8, c: u8, d: u8) -> [u8; 4]
    requires { at + 4 ≤ 240 }
    ensures { (p q s t : ℕ) (sub : ℕ → ℕ) → Rows p q s t sub words.now → result ≡ Cipher.add_round_key (Cipher.columns (Cipher.row p q s t) (map sub (a ∷ b ∷ c ∷ d ∷ []))) (take 4 (drop at w.now)) }
{
    (four(w, at) ^ summed(words, a, b, c, d)).to_le_bytes()
}

// A state substituted and mixed, with round key n added.
pub fn round(words: &[u32; 1024], w: &[u8; 240], n: usize, s: [u8; 16]) -> [u8; 16]
    requires { n ≤ 14 }
    ensures { (p q u t : ℕ) (sub : ℕ → ℕ) → Rows p q u t sub words.now → result ≡ Cipher.add_round_key (Cipher.columns (Cipher.row p q u t) (map sub s)) (Cipher.round_key w.now n) }
{
    joined(
        column(words, w, 16 * n, s[0], s[1], s[2], s[3]),
        column(words, w, 16 * n + 4, s[4], s[5], s[6], s[7]),
        column(words, w, 16 * n + 8, s[8], s[9], s[10], s[11]),
        column(words, w, 16 * n + 12, s[12], s[13], s[14], s[15]),
    )
}
