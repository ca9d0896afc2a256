// The compression of SHA-1: one block of sixteen words into the five that go from block to block (FIPS 180-4 6.1.2), by the message
// schedule and eighty rounds. `sha1_digest` stands above it, with whole messages.

#![tactic(auto)]

ghost use Rattle.std.specs.Prelude.{◌≡◌};
ghost use Rattle.sha1_rounds.specs.Compression as fips;

mod constants;
pub mod rounds;
pub mod schedule;

pub use constants::{RoundWords, round_words};

// The five words that go from block to block (FIPS 180-4 6.1).
#[derive(Clone, Copy, Debug, PartialEq, Eq)]
pub struct State {
    pub a: u32,
    pub b: u32,
    pub c: u32,
    pub d: u32,
    pub e: u32,
}

// The starting words (FIPS 180-4 5.3.1).
const START: [u32; 5] = [0x67452301, 0xefcdab89, 0x98badcfe, 0x10325476, 0xc3d2e1f0];

// The state before the first block.
#[tactic(auto, unfolding(crate::specs::Compression::start))]
pub fn start() -> State
    ensures { result ≡ fips.start }
{
    let [a, b, c, d, e] = START;
    State { a, b, c, d, e }
}

// One block of sixteen words, the round words lent. It is put into each caller's loop over blocks.
#[tactic(auto, using(crate::proofs::Steps::compressed))]
#[inline(always)]
pub fn compress(s: State, m: &[u32; 16], k: &RoundWords) -> State
    ensures { result ≡ fips.compress s m.now }
{
    let w = schedule::schedule(m);
    let r = rounds::eighty(&w, k, s);
    rounds::sums(s, r)
}
