// The message schedule of eighty words (FIPS 180-4 6.1.2, step 1). The recurrence goes in four spans of sixteen, which the
// compiler unrolls, so that the array dissolves.
ghost use Rattle.std.specs.Prelude.{◌≡◌, ℕ, ◌<◌, ◌≤◌, List, take};
ghost use Rattle.sha1_rounds.specs.Compression as fips;

use crate::rounds::rotl;

// Word t, from the words before it.
#[tactic(auto, unfolding(crate::specs::Compression::schedule_word))]
fn later(w: &[u32; 80], t: usize) -> u32
    requires { (16 ≤ t) × (t < 80) }
    ensures { (m : List ℕ) → result ≡ fips.schedule_word m t w.now }
{
    rotl(1, w[t - 3] ^ w[t - 8] ^ w[t - 14] ^ w[t - 16])
}

// The words from `from` up to `to`, after those before.
#[tactic(auto, using(crate::proofs::Steps::words_more, crate::proofs::Steps::word_later))]
pub fn extend(w: &mut [u32; 80], from: usize, to: usize)
    requires { (16 ≤ from) × ((from ≤ to) × (to ≤ 80)) }
    ensures { (m : List ℕ) → take from w.old ≡ fips.words m from → take to w.new ≡ fips.words m to }
{
    for t in from..to {
        w[t] = later(w, t);
    }
}

// The schedule's first sixteen words; `extend` makes the others.
// kept: `copy_from_slice` here makes a turn of the key derivation a tenth slower, since the words then lie in memory.
#[tactic(auto, using(crate::proofs::Steps::words_none))]
pub fn begun(m: &[u32; 16]) -> [u32; 80]
    ensures { take 16 result ≡ fips.words m.now 16 }
{
    let mut w = [0u32; 80];
    for t in 0..16 {
        w[t] = m[t];
    }
    w
}

// The schedule of sixteen words.
pub fn schedule(m: &[u32; 16]) -> [u32; 80]
    ensures { result ≡ fips.words m.now 80 }
{
    let mut w = begun(m);
    extend(&mut w, 16, 32);
    extend(&mut w, 32, 48);
    extend(&mut w, 48, 64);
    extend(&mut w, 64, 80);
    w
}
