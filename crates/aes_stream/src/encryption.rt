// The cipher of a stream (FIPS 197 5.1), under a key and tables that are lent.
ghost use Rattle.std.specs.Prelude.{◌≡◌, ◌-◌, ◌<◌, ◌≤◌};
ghost use Rattle.fips197.specs.Tables.{sbox};
ghost use Rattle.fips197.specs.Cipher as Cipher;
ghost use Rattle.aes_stream.specs.Words.{Forward};

use crate::rounds;
use aes_rounds::{add_round_key, shift_rows, sub_bytes};

// An expanded key of so many rounds, with the substitution table and its words.
#[derive(Clone, Copy)]
pub struct Encryption<'a> {
    pub w: &'a [u8; 240],
    pub rounds: usize,
    pub table: &'a [u8; 256],
    pub words: &'a [u32; 1024],
    ghost in_range: { (0 < rounds) × (rounds ≤ 14) },
    ghost tables: { (table.now ≡ sbox) × Forward words.now },
}

impl<'a> Encryption<'a> {
    // Round n.
    fn round(&self, n: usize, s: [u8; 16]) -> [u8; 16]
        requires { n ≤ 14 }
        ensures { result ≡ Cipher.round (Cipher.round_key self.now.w.now) n s }
    {
        rounds::round(self.words, self.w, n, shift_rows(s))
    }

    // Rounds 1 to `rounds` - 1, two a turn: at the end of a turn the compiler takes every byte out of its word to carry it round the
    // loop, and between two rounds of a turn only where it is looked up.
    #[tactic(auto, using(fips197::proofs::Steps::rounds_none, fips197::proofs::Steps::rounds_more))]
    fn between(&self, first: [u8; 16]) -> [u8; 16]
        ensures { result ≡ Cipher.rounds (Cipher.round_key self.now.w.now) (self.now.rounds - 1) first }
    {
        let mut s = first;
        let mut n = 1;
        while n + 1 < self.rounds {
            let t = self.round(n, s);
            let u = self.round(n + 1, t);
            s = u;
            n += 2;
        }
        if n < self.rounds {
            return self.round(n, s);
        }
        s
    }

    // A block encrypted.
    #[tactic(auto, unfolding(fips197::specs::Cipher::cipher, fips197::specs::Cipher::sub_bytes))]
    pub fn block(&self, block: [u8; 16]) -> [u8; 16]
        ensures { result ≡ Cipher.cipher (Cipher.round_key self.now.w.now) self.now.rounds block }
    {
        let s = self.between(add_round_key(self.w, 0, block));
        add_round_key(self.w, self.rounds, shift_rows(sub_bytes(self.table, s)))
    }
}
