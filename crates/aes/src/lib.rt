// AES: the block cipher of FIPS 197, both directions, for keys of 16, 24 and 32 bytes.
//
// Every function gives exactly what specs/Aes.antt says, for every input: `encrypt` and `decrypt` give the block, or refusal 8 for a key
// of another length. Each undoes the other (fips197/proofs/Undo.antt).
//
// Warning: the bytes of a block and of a key are looked up in tables, so the time taken can betray them to whoever shares the
// processor's cache. A single block is not a way to encrypt a message.
//
//     let sealed = aes::encrypt(&key, block)?;
//     let opened = aes::decrypt(&key, sealed)?;
//
// A stream expands its key once; `aes_stream` has the ciphers for it. `aes_rounds::cipher` and `aes_rounds::inv_cipher` do a lone
// block's work: the one doubles, the other lays the shares of `products`, and neither mixes a key.

#![tactic(auto)]

ghost use Rattle.std.specs.Prelude.{◌≡◌, ◌<◌, ◌≤◌};
ghost use Rattle.aes.specs.Aes as Aes;

mod expansion;
mod round_keys;
pub mod tables;

use answers::Refusal;
use expansion::KeySchedule;
pub use round_keys::RoundKeys;

// The round keys, 16 bytes each and zeros after the last, with the number of rounds.
#[derive(Clone, Copy)]
pub struct Expanded {
    pub bytes: [u8; 240],
    pub rounds: usize,
}

impl Expanded {
    // For the ciphers, where they take the number of rounds.
    pub fn round_keys(self) -> RoundKeys
        requires { (0 < self.rounds) × (self.rounds ≤ 14) }
        ensures { Aes.expanded_of result ≡ self }
    {
        let bytes = self.bytes;
        RoundKeys {
            bytes,
            rounds: self.rounds,
        }
    }
}

// The expanded key; all zero, with no rounds, for a key that is not of 16, 24 or 32 bytes.
// kept: no Option: its clause gives zeros and no rounds for another key, and a call that can't fail stays so (Aes.antt `expanded`)
pub fn expand(key: &[u8]) -> Expanded
    ensures { result ≡ Aes.expanded key.now }
{
    match key.len() {
        16 | 24 | 32 => {
            let table = tables::SBOX;
            let nk = key.len() / 4;
            let bytes = KeySchedule { table: &table, nk }.expand(key);
            Expanded {
                bytes,
                rounds: nk + 6,
            }
        }
        _ => Expanded {
            bytes: [0u8; 240],
            rounds: 0,
        },
    }
}

// A block under an expanded key; refused where the number of rounds is not 10, 12 or 14.
pub fn encrypt_block(key: Expanded, block: [u8; 16]) -> Result<[u8; 16], Refusal>
    ensures { Aes.block_reply result ≡ Aes.encrypted_by key block }
{
    match key.rounds {
        10 | 12 | 14 => {
            let table = tables::SBOX;
            Ok(aes_rounds::cipher(&key.bytes, key.rounds, &table, block))
        }
        _ => Err(Refusal::KeySize),
    }
}

// kept: beside encrypt_block: the inverse cipher takes other tables, and the shares (FIPS 197 5.3)
// The block that an encrypted one came from, under an expanded key; refused as `encrypt_block` refuses.
pub fn decrypt_block(key: Expanded, block: [u8; 16]) -> Result<[u8; 16], Refusal>
    ensures { Aes.block_reply result ≡ Aes.decrypted_by key block }
{
    match key.rounds {
        10 | 12 | 14 => {
            let table = tables::INV_SBOX;
            let shares = products::shares();
            Ok(aes_rounds::inv_cipher(&key.bytes, key.rounds, &table, &shares, block))
        }
        _ => Err(Refusal::KeySize),
    }
}

// A block under a key; refused where the key is not of 16, 24 or 32 bytes.
pub fn encrypt(key: &[u8], block: [u8; 16]) -> Result<[u8; 16], Refusal>
    ensures { Aes.block_reply result ≡ Aes.encrypted key.now block }
{
    encrypt_block(expand(key), block)
}

// The block that an encrypted one came from; refused as `encrypt` refuses.
pub fn decrypt(key: &[u8], block: [u8; 16]) -> Result<[u8; 16], Refusal>
    ensures { Aes.block_reply result ≡ Aes.decrypted key.now block }
{
    decrypt_block(expand(key), block)
}
