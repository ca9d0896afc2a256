// What `make bench` measures, for C to call: each function does its work once, and answers a number that depends on it.

#![tactic(auto)]

mod in_place;

use aes::RoundKeys;
use aes_stream::{Decryption, Encryption};
use answers::{Refusal, number};
use password::Lock;

// The first eight bytes of a hash, as a number.
#[unsafe(no_mangle)]
pub extern "C" fn bench_sha1(message: &[u8]) -> u64 {
    sha1_digest::digest(message).map_or(0, |hash| octets::le64(&hash, 0))
}

// The round keys of a key of 16, 24 or 32 bytes.
fn round_keys(key: &[u8]) -> Result<RoundKeys, Refusal> {
    let expanded = aes::expand(key);
    if expanded.rounds == 0 || 14 < expanded.rounds {
        return Err(Refusal::KeySize);
    }
    Ok(expanded.round_keys())
}

// Every whole block of a buffer encrypted in place, tables and expanded key lent.
fn encrypt(key: &[u8], buf: &mut [u8]) -> Result<(), Refusal> {
    let key = round_keys(key)?;
    let w = key.bytes;
    let table = aes::tables::SBOX;
    let mut words = [0u32; 1024];
    aes_stream::lay_forward(&table, &mut words);
    let encryption = Encryption {
        w: &w,
        rounds: key.rounds,
        table: &table,
        words: &words,
    };
    in_place::each(buf, |block| encryption.block(block));
    Ok(())
}

// The same, decrypted.
// kept: beside encrypt: the two lend different tables, and the blocks' loop is one for both (in_place)
fn decrypt(key: &[u8], buf: &mut [u8]) -> Result<(), Refusal> {
    let key = round_keys(key)?;
    let w = key.bytes;
    let table = aes::tables::INV_SBOX;
    let shares = products::shares();
    let mixed = aes_stream::mixed(&w, &shares);
    let mut words = [0u32; 1024];
    aes_stream::lay_inverse(&table, &shares, &mut words);
    let decryption = Decryption {
        w: &w,
        mixed: &mixed,
        rounds: key.rounds,
        table: &table,
        words: &words,
    };
    in_place::each(buf, |block| decryption.block(block));
    Ok(())
}

// `encrypt`, as a number.
#[unsafe(no_mangle)]
pub extern "C" fn bench_encrypt(key: &[u8], buf: &mut [u8]) -> u64 {
    u64::from(number(encrypt(key, buf)))
}

// `decrypt`, as a number.
#[unsafe(no_mangle)]
pub extern "C" fn bench_decrypt(key: &[u8], buf: &mut [u8]) -> u64 {
    u64::from(number(decrypt(key, buf)))
}

// A verdict, as a number.
#[unsafe(no_mangle)]
pub extern "C" fn bench_verdict(info: &[u8], password: &[u16]) -> u64 {
    let lock = Lock {
        info,
        password,
        scheme: descriptor::ECB,
    };
    u64::from(number(lock.verdict()))
}
