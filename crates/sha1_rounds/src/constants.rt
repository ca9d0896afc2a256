// The words of the rounds (FIPS 180-4 4.2.1), for a caller to lend. A constant that the compiler sees it adds last, after the rotated
// word that a round waits for; one that comes from outside it adds first.
ghost use Rattle.std.specs.Prelude.{◌≡◌};
ghost use Rattle.sha1_rounds.specs.Compression as fips;

// The words of the four ranges (4.2.1).
const ROUND: [u32; 4] = [0x5a827999, 0x6ed9eba1, 0x8f1bbcdc, 0xca62c1d6];

// The four round words.
#[derive(Clone, Copy)]
pub struct RoundWords {
    pub words: [u32; 4],
    ghost known: { words ≡ fips.round_words },
}

// The four round words, to be lent.
#[tactic(auto, unfolding(crate::specs::Compression::round_words))]
pub fn round_words() -> RoundWords
    ensures { result.words ≡ fips.round_words }
{
    RoundWords { words: ROUND }
}
