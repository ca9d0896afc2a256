// The refusals of 01 with their numbers, which of them a call gives, and how a call with an output ends.
//
// What an entry gives is `Ok` where every rule holds, else the first broken rule's refusal: specs/Rules.antt has the ordered list,
// specs/Refusals.antt the numbers, specs/Ended.antt what a call leaves by its answer, proofs/ what follows from either.

#![tactic(auto)]

ghost use Rattle.std.specs.Prelude.{◌≡◌, cond};
ghost use Rattle.octets.specs.Octets.{zero_from};
ghost use Rattle.answers.specs.Rules.{first_of, room_rules};
ghost use Rattle.answers.specs.Refusals as Refusals;
ghost use Rattle.answers.specs.Refusals.{answer_of};

// Why a call is refused, in the numbers of 01; 0 is the answer of a call that is not.
#[derive(Clone, Copy, Debug, PartialEq, Eq)]
pub enum Refusal {
    // EncryptionInfo has fewer than 12 bytes.
    InfoShort = 1,
    // The minor version is not 2, or the major is not 2, 3 or 4.
    Version = 2,
    // HeaderSize is below 32 or above 4,096.
    HeaderSize = 3,
    // EncryptionInfo is not HeaderSize + 84 bytes long.
    InfoLength = 4,
    // SizeExtra exceeds HeaderSize - 32, or the name's byte count is odd.
    NameLength = 5,
    // AlgID is none of the three.
    AlgId = 6,
    // AlgIDHash is not that of SHA-1.
    AlgIdHash = 7,
    // KeySize is not the one for AlgID; a key not of 16, 24 or 32 bytes.
    KeySize = 8,
    // SaltSize is not 16.
    SaltSize = 9,
    // VerifierHashSize is not 20.
    VerifierHashSize = 10,
    // The password is longer than 255 units.
    PasswordLong = 11,
    // The password does not match the verifier.
    PasswordWrong = 12,
    // The package stream has fewer than 8 bytes.
    StreamShort = 13,
    // The package size is above 268,435,456.
    StreamSize = 14,
    // The bytes after the first 8 are not, in number, StreamSize rounded up to a multiple of 16, nor, where StreamSize is above 0 and a
    // multiple of 4,096, that and an extra block.
    StreamLength = 15,
    // The output is shorter than what is to be written.
    Room = 16,
    // A file is missing or longer than 65,536 bytes, or the password file has an odd length.
    Files = 17,
    // A message to hash is longer than 65,536 bytes.
    MessageLong = 18,
    // The scheme is neither ECB nor chained.
    Scheme = 19,
    // A stretch ends before it begins, or past the package.
    Range = 20,
}

impl From<Refusal> for u16 {
    ghost from_gives = { λ refusal n. n ≡ Refusals.number refusal };

    fn from(refusal: Refusal) -> u16 {
        refusal as u16
    }
}

// The number that a call answers.
pub fn number<T: Copy>(given: Result<T, Refusal>) -> u16
    ensures { result ≡ answer_of given }
{
    match given {
        Ok(_) => 0,
        Err(refusal) => refusal.into(),
    }
}

// One rule: refused where it is broken.
pub fn rule(broken: bool, refusal: Refusal) -> Result<(), Refusal>
    ensures { answer_of result ≡ cond broken (Refusals.number refusal) 0 }
{
    if broken { Err(refusal) } else { Ok(()) }
}

// The rule on room: refused where an output of `room` bytes is shorter than what is to be written.
#[tactic(auto, unfolding(crate::specs::Rules::first_of, crate::specs::Rules::room_rules))]
pub fn room_answer(room: usize, size: usize) -> Result<(), Refusal>
    ensures { answer_of result ≡ first_of (room_rules room size) }
{
    rule(room < size, Refusal::Room)
}

// How a call ends that has written so many bytes: with zeros after them, and their number.
pub fn done(size: usize, out: &mut [u8]) -> usize
    ensures { (result ≡ size) × (out.new ≡ zero_from size out.old) }
{
    octets::zero_from(out, size);
    size
}
