// What crosses as numbers: an answer beside a size, sixteen or twelve bytes, and a key's length in bits.
ghost use Rattle.std.specs.Prelude.{◌≡◌, ◌^◌, ◌<◌};
ghost use Rattle.crossing.specs.Crossing as Crossing;

use descriptor::BitCount;

// kept: a number for a refusal: the C interface (ROPESHADOW_ANSWER)
// An answer and a size in one number, which holds every size below 2^48.
#[tactic(auto, unfolding(crate::specs::Crossing::reply_word))]
pub fn word(answer: u16, size: usize) -> u64
    requires { size < 2 ^ 48 }
    ensures { result ≡ Crossing.reply_word answer size }
{
    u64::from(answer) + 65536 * size as u64
}

// The sixteen bytes of two numbers.
#[tactic(auto, using(crate::proofs::Laid::sixteen_laid))]
pub fn sixteen(low: u64, high: u64) -> [u8; 16]
    ensures { result ≡ Crossing.sixteen low high }
{
    let mut b = [0; 16];
    octets::put_le64(&mut b, 0, low);
    octets::put_le64(&mut b, 8, high);
    b
}

// The first twelve of them.
#[tactic(auto, unfolding(crate::specs::Crossing::twelve))]
pub fn twelve(low: u64, high: u64) -> [u8; 12]
    ensures { result ≡ Crossing.twelve low high }
{
    octets::part(&sixteen(low, high), 0)
}

// A number of bits as KeySize holds it: one that is too large for its four bytes counts as 0, which is no key's, and not as what is left
// of it.
#[tactic(auto, unfolding(crate::specs::Crossing::bit_count))]
pub fn bit_count(bits: u64) -> BitCount
    ensures { result ≡ Crossing.bit_count bits }
{
    BitCount(u32::try_from(bits).unwrap_or(0))
}
