// The fifty thousand turns (000 4.2). A turn hashes 24 bytes, the counter and the five words before, which with the padding are one
// block: its sixteen words are made from these, with no buffer of bytes in between.
ghost use Rattle.std.specs.Prelude.{◌≡◌};
ghost use Rattle.octets.specs.Octets.{be, le_bytes};
ghost use Rattle.sha1_digest.specs.Sha1.{output};
ghost use Rattle.derivation.specs.Key.{turn, turns, spins, block_hash};

use sha1_digest::{RoundWords, State};

// A number's four bytes, low byte first, as the word that they make high byte first.
#[tactic(auto, using(crate::proofs::Words::swapped_word))]
fn swapped(i: u32) -> u32
    ensures { result ≡ be (le_bytes 4 i) }
{
    i.swap_bytes()
}

// Turn i.
#[tactic(auto, using(crate::proofs::Words::turn_words))]
fn next(k: &RoundWords, i: u32, s: State) -> State
    ensures { output result ≡ turn i (output s) }
{
    sha1_digest::six(k, swapped(i), s.a, s.b, s.c, s.d, s.e)
}

// All the turns.
#[tactic(auto, unfolding(crate::specs::Key::spins), using(crate::proofs::Words::turns_none, crate::proofs::Words::turns_more))]
pub fn spun(s: State) -> State
    ensures { output result ≡ turns spins (output s) }
{
    let k = sha1_digest::round_words();
    let mut h = s;
    for i in 0..50000 {
        h = next(&k, i, h);
    }
    h
}

// B: the hash of H and a block number.
#[tactic(auto, using(crate::proofs::Words::block_words_lem))]
pub fn block_hash(number: u32, s: State) -> State
    ensures { output result ≡ block_hash number (output s) }
{
    let k = sha1_digest::round_words();
    sha1_digest::six(&k, s.a, s.b, s.c, s.d, s.e, swapped(number))
}
