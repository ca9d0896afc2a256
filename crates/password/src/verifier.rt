// The password check (004 2.3.4.9, 000 section 6): the verifier's hash against what is stored.
ghost use Rattle.std.specs.Prelude.{◌≡◌, ℕ, true, List, ◌++◌, length, take, drop};
ghost use Rattle.octets.specs.Octets.{same};
ghost use Rattle.aes.specs.Aes.{key_length, expanded, expanded_of};
ghost use Rattle.password.specs.Verifier as Verifier;

use aes::RoundKeys;
use blocks::Mode;

// EncryptedVerifier and EncryptedVerifierHash, one after the other.
fn fields(verifier: [u8; 16], hash: [u8; 32]) -> [u8; 48]
    ensures { result ≡ verifier ++ hash }
{
    let mut b = [0u8; 48];
    octets::copy(&verifier, 0, 16, &mut b, 0);
    octets::copy(&hash, 0, 32, &mut b, 16);
    b
}

// They, decrypted under the round keys of a key, each block by itself under every scheme.
fn opened(key: RoundKeys, fields: [u8; 48]) -> [u8; 48]
    ensures { (k : List ℕ) → key_length (length k) ≡ true → expanded_of key ≡ expanded k → result ≡ Verifier.verifier_opening k fields }
{
    let mut plain = [0u8; 48];
    blocks::decrypt(key, Mode::Ecb, blocks::start(), &fields, 48, &mut plain);
    plain
}

// Whether twenty bytes are those after the first sixteen.
fn agree(digest: [u8; 20], plain: [u8; 48]) -> bool
    ensures { result ≡ same digest (take 20 (drop 16 plain)) }
{
    digest[..] == plain[16..36]
}

// Whether the verifier's hash is what was stored, under the round keys of a key.
pub fn matches(key: RoundKeys, verifier: [u8; 16], hash: [u8; 32]) -> bool
    ensures { (k : List ℕ) → key_length (length k) ≡ true → expanded_of key ≡ expanded k → result ≡ Verifier.matches (Verifier.verifier_opening k) verifier hash }
{
    let plain = opened(key, fields(verifier, hash));
    let digest = sha1_digest::output(sha1_digest::hash(&plain[..16]));
    agree(digest, plain)
}
