// EncryptionVerifier, the 72 bytes after the provider name (004 2.3.3 and 2.3.4.8).
ghost use Rattle.std.specs.Prelude.{◌≡◌, true, List, ℕ, length};
ghost use Rattle.aes.specs.Aes.{key_length, expanded, expanded_of};
ghost use Rattle.descriptor.specs.LaidOut as LaidOut;
ghost use Rattle.password.specs.Verifier.{verifier_plain, verifier_sealing};
ghost use Rattle.writer.specs.Written as Written;

use aes::RoundKeys;
use blocks::Mode;

// The verifier, its hash, and the bytes that fill its last block.
#[tactic(auto, using(crate::proofs::Laid::plain_laid))]
fn plain(verifier: [u8; 16], filling: [u8; 12]) -> [u8; 48]
    ensures { result ≡ verifier_plain verifier filling }
{
    let digest = sha1_digest::output(sha1_digest::hash(&verifier));
    let mut b = [0; 48];
    octets::copy(&verifier, 0, 16, &mut b, 0);
    octets::copy(&digest, 0, 20, &mut b, 16);
    octets::copy(&filling, 0, 12, &mut b, 36);
    b
}

// They, encrypted under the round keys of a key.
fn sealed(key: RoundKeys, plain: [u8; 48]) -> [u8; 48]
    ensures { (k : List ℕ) → key_length (length k) ≡ true → expanded_of key ≡ expanded k → result ≡ verifier_sealing k plain }
{
    let mut b = [0; 48];
    blocks::encrypt(
        key,
        Mode::Ecb,
        blocks::start(),
        &plain,
        [0; 16],
        48,
        &mut b,
        0,
    );
    b
}

// SaltSize, the salt, the verifier, VerifierHashSize and the verifier's hash, under the round keys of a key.
#[tactic(auto, using(crate::proofs::Laid::verifier_laid))]
pub fn locked(key: RoundKeys, salt: [u8; 16], verifier: [u8; 16], filling: [u8; 12]) -> [u8; 72]
    ensures { (bits : ℕ) (k name : List ℕ) → key_length (length k) ≡ true → expanded_of key ≡ expanded k → result ≡ LaidOut.verifier (Written.new_fields bits k name salt verifier filling) }
{
    let fields = sealed(key, plain(verifier, filling));
    let mut b = [0; 72];
    octets::put_le32(&mut b, 0, 16);
    octets::copy(&salt, 0, 16, &mut b, 4);
    octets::copy(&fields, 0, 16, &mut b, 20);
    octets::put_le32(&mut b, 36, 20);
    octets::copy(&fields, 16, 32, &mut b, 40);
    b
}
