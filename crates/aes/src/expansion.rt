// The key expansion (FIPS 197 5.2), over the number nk of key words.
ghost use Rattle.std.specs.Prelude.{◌≡◌, ◌++◌, ◌+◌, ◌-◌, ◌*◌, ◌<◌, ◌≤◌, length, replicate};
ghost use Rattle.fips197.specs.Tables as Tables;
ghost use Rattle.fips197.specs.Expansion as Expansion;

use super::tables::round_constant;
use aes_rounds::sub_bytes;

// An expansion to come: the substitution table, lent, and the number of words of the key.
#[derive(Clone, Copy)]
pub struct KeySchedule<'a> {
    pub table: &'a [u8; 256],
    pub nk: usize,
    ghost sbox: { table.now ≡ Tables.sbox },
    ghost words: { (4 ≤ nk) × (nk ≤ 8) },
}

impl KeySchedule<'_> {
    // What is added to the word nk places back to make word i, from the word t before it.
    fn turned(&self, i: usize, t: [u8; 4]) -> [u8; 4]
        requires { (self.now.nk ≤ i) × (i < 4 * (self.now.nk + 7)) }
        ensures { result ≡ Expansion.turned self.now.nk i t }
    {
        let place = i % self.nk;
        if place == 0 {
            let u = sub_bytes(self.table, [t[1], t[2], t[3], t[0]]);
            return [u[0] ^ round_constant(i / self.nk), u[1], u[2], u[3]];
        }
        if 6 < self.nk {
            if place == 4 {
                return sub_bytes(self.table, t);
            }
        }
        t
    }

    // Word i, from the words before it.
    fn next(&self, w: &[u8], i: usize) -> [u8; 4]
        requires { (self.now.nk ≤ i) × (i < 4 * (self.now.nk + 7)) × (4 * i ≤ length w.now) }
        ensures { result ≡ Expansion.next self.now.nk i w.now }
    {
        let u: [u8; 4] = octets::part(w, 4 * (i - self.nk));
        let t = self.turned(i, octets::part(w, 4 * (i - 1)));
        [u[0] ^ t[0], u[1] ^ t[1], u[2] ^ t[2], u[3] ^ t[3]]
    }

    // The expanded key, and zeros after it.
    pub fn expand(&self, key: &[u8]) -> [u8; 240]
        requires { length key.now ≡ 4 * self.now.nk }
        ensures { result ≡ Expansion.schedule self.now.nk key.now ++ replicate (240 - 16 * (Expansion.rounds_for self.now.nk + 1)) 0 }
    {
        let mut w = [0u8; 240];
        octets::copy(key, 0, 4 * self.nk, &mut w, 0);
        for i in self.nk..4 * (self.nk + 7) {
            let t = self.next(&w, i);
            octets::copy(&t, 0, 4, &mut w, 4 * i);
        }
        w
    }
}
