// SHA-1, as FIPS 180-4 defines it. The locked documents of 01 are made with it; it is broken as a hash for signatures, and
// nothing new should be built on it.
//
//     let hash = sha1_digest::digest(message)?;
//
// `digest` hashes whole messages. The key derivation goes on from the state after one (`hash`), and hashes six words at a time that
// it makes itself (`six`).

#![tactic(auto)]

ghost use Rattle.std.specs.Prelude.{◌≡◌, ◌≤◌, length};
ghost use Rattle.sha1_digest.specs.Sha1 as fips;

mod blocks;
mod padding;
mod single;

use answers::{Refusal, rule};
pub use blocks::output;
pub use sha1_rounds::{RoundWords, State, round_words};
pub use single::six;

// The state after a message within the limit, and what ends it.
#[tactic(auto, using(crate::proofs::Padded::length_pad, crate::proofs::Padded::hash_law))]
pub fn hash(m: &[u8]) -> State
    requires { length m.now ≤ 65536 }
    ensures { fips.output result ≡ fips.sha1 m.now }
{
    let tail = padding::ending(m);
    blocks::chain(m, &tail, (m.len() + 72) / 64)
}

// The hash of a message of at most 65,536 bytes.
#[tactic(auto, unfolding(crate::specs::Sha1::hashed, crate::specs::Sha1::hash_rules, answers::specs::Rules::first_of))]
pub fn digest(message: &[u8]) -> Result<[u8; 20], Refusal>
    ensures { fips.hashed_of result ≡ fips.hashed message.now }
{
    rule(65536 < message.len(), Refusal::MessageLong)?;
    Ok(output(hash(message)))
}
