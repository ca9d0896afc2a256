// The segments of a chained package (003; 001, "Standard (CryptoAPI): `EncryptedPackage` decryption"): with which blocks they begin, and
// what they start from.
//
//     if segments::begins(size, number) { .. segments::starting_vector(salt, number / 256) .. }
//
// How many segments there are follows from the package's size alone: an extra block past the last one belongs to it.

#![tactic(auto)]

ghost use Rattle.std.specs.Prelude.{◌≡◌};
ghost use Rattle.steps.specs.Chained as Chained;
ghost use Rattle.segments.specs.Start.{start_of};

// The starting vector of a segment. Salt and number are one block of the hash, with what ends it.
#[tactic(auto, unfolding(crate::specs::Start::start_of), using(crate::proofs::Vectors::message_laid))]
pub fn starting_vector(salt: [u8; 16], number: u32) -> [u8; 16]
    ensures { result ≡ start_of salt number }
{
    let mut message = [0u8; 20];
    octets::copy(&salt, 0, 16, &mut message, 0);
    octets::put_le32(&mut message, 16, number);
    let digest = sha1_digest::output(sha1_digest::hash(&message));
    octets::part(&digest, 0)
}

// The segment of a block, counted from 0, in a package of so many bytes.
#[tactic(auto, unfolding(steps::specs::Chained::segment))]
fn segment(size: usize, number: usize) -> usize
    ensures { result ≡ Chained.segment size number }
{
    let last = size.saturating_sub(1) / 4096;
    (number / 256).min(last)
}

// Whether a segment begins with a block.
#[tactic(auto, unfolding(steps::specs::Chained::begins, steps::specs::Chained::segment))]
pub fn begins(size: usize, number: usize) -> bool
    ensures { result ≡ Chained.begins size number }
{
    number == 256 * segment(size, number)
}
