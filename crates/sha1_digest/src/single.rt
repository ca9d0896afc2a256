// A message of one block, its padding known. The spans of `schedule` and `eighty` are called here once more: where they are called with the
// block in sight the words that are constant fold.
ghost use Rattle.std.specs.Prelude.{◌≡◌, [], ◌∷◌};
ghost use Rattle.sha1_digest.specs.Sha1 as fips;

use sha1_rounds::rounds::{span, sums};
use sha1_rounds::schedule::{begun, extend};
use sha1_rounds::{RoundWords, State, start};

// The hash of six words: they, the one bit, zeros and the length of 192 bits are one block.
// kept: by spans and on six numbers: so a verdict takes 1.01 of b0e2f11's time, by one call of `compress` 1.03 to 1.23 (bar: 1.02)
#[tactic(auto, using(sha1_rounds::proofs::Steps::round_word))]
pub fn six(k: &RoundWords, a: u32, b: u32, c: u32, d: u32, e: u32, f: u32) -> State
    ensures { fips.output result ≡ fips.sha1 (fips.word_bytes (a ∷ b ∷ c ∷ d ∷ e ∷ f ∷ [])) }
{
    let m = [a, b, c, d, e, f, 0x80000000, 0, 0, 0, 0, 0, 0, 0, 0, 192];
    let mut w = begun(&m);
    extend(&mut w, 16, 32);
    extend(&mut w, 32, 48);
    extend(&mut w, 48, 64);
    extend(&mut w, 64, 80);
    let s = start();
    let first = span(&w, k.words[0], 0, 20, s);
    let second = span(&w, k.words[1], 20, 40, first);
    let third = span(&w, k.words[2], 40, 60, second);
    sums(s, span(&w, k.words[3], 60, 80, third))
}
