// The inverse cipher of a stream (FIPS 197 5.3, in the order of 5.3.5), under a key and tables that are lent.
ghost use Rattle.std.specs.Prelude.{◌≡◌, ◌-◌, ◌<◌, ◌≤◌, length};
ghost use Rattle.fips197.specs.Tables.{inv_sbox};
ghost use Rattle.fips197.specs.Cipher as Cipher;
ghost use Rattle.aes_stream.specs.Words.{Inverse};

use crate::rounds;
use aes_rounds::{add_round_key, inv_shift_rows, sub_bytes};

// An expanded key of so many rounds and its mixed round keys, with the inverse table and its words.
#[derive(Clone, Copy)]
pub struct Decryption<'a> {
    pub w: &'a [u8; 240],
    pub mixed: &'a [u8; 240],
    pub rounds: usize,
    pub table: &'a [u8; 256],
    pub words: &'a [u32; 1024],
    ghost in_range: { (0 < rounds) × (rounds ≤ 14) },
    ghost keys: { (length w.now ≡ 240) × (mixed.now ≡ Cipher.inv_mix_columns w.now) },
    ghost tables: { (table.now ≡ inv_sbox) × Inverse words.now },
}

// kept: beside Encryption: its rounds count down, under the mixed keys, and steps and last key differ (FIPS 197 5.3.5)
impl<'a> Decryption<'a> {
    // Round n.
    fn round(&self, n: usize, s: [u8; 16]) -> [u8; 16]
        requires { n ≤ 14 }
        ensures { result ≡ Cipher.inv_round (Cipher.round_key self.now.w.now) n s }
    {
        rounds::round(self.words, self.mixed, n, inv_shift_rows(s))
    }

    // Rounds `rounds` - 1 down to 1, two a turn as in Encryption.
    #[tactic(auto, using(fips197::proofs::Steps::inv_rounds_less), unfolding(fips197::specs::Cipher::inv_rounds))]
    fn between(&self, first: [u8; 16]) -> [u8; 16]
        ensures { result ≡ Cipher.inv_rounds (Cipher.round_key self.now.w.now) (self.now.rounds - 1) first }
    {
        let mut s = first;
        let mut n = self.rounds - 1;
        while 1 < n {
            let t = self.round(n, s);
            let u = self.round(n - 1, t);
            s = u;
            n -= 2;
        }
        if 0 < n {
            return self.round(n, s);
        }
        s
    }

    // A block decrypted.
    #[tactic(auto, unfolding(fips197::specs::Cipher::inv_cipher, fips197::specs::Cipher::inv_sub_bytes))]
    pub fn block(&self, block: [u8; 16]) -> [u8; 16]
        ensures { result ≡ Cipher.inv_cipher (Cipher.round_key self.now.w.now) self.now.rounds block }
    {
        let s = self.between(add_round_key(self.w, self.rounds, block));
        add_round_key(self.w, 0, sub_bytes(self.table, inv_shift_rows(s)))
    }
}
