// AES, a row to a vector: the keys and blocks of FIPS 197 with what it gives for them, and keys of other lengths, which are refused. A
// line ends with what was expected where something else came out.
use aes::Expanded;
use answers::Refusal;
use samples::front;
use std::io;

// The bytes that came out, and those that should have, where they are others.
fn ended(rt: &impl Print, got: [u8; 16], expected: [u8; 16]) -> io::Result<()> {
    lines::hex(rt, &got)?;
    if got != expected {
        print!(rt; ", and not ")?;
        lines::hex(rt, &expected)?;
    }
    println!(rt)
}

// The number of rounds, of which FIPS 197 has at most 14, and the last round key of an expanded key.
fn expansion(rt: &impl Print, k: &[u8], last: [u8; 16]) -> io::Result<()> {
    let Expanded { bytes, rounds } = aes::expand(k);
    print!(rt; "aes key {}: rounds {rounds} last round key ", k.len())?;
    ended(rt, octets::part(&bytes, 16 * rounds.min(14)), last)
}

// What became of a block under a key: a refused one shows zeros.
fn replied(
    rt: &impl Print,
    k: &[u8],
    way: &str,
    given: Result<[u8; 16], Refusal>,
    expected: [u8; 16],
) -> io::Result<()> {
    let n = k.len();
    print!(rt; "aes key {n}: {way} answer {} ", answers::number(given))?;
    ended(rt, given.unwrap_or([0; 16]), expected)
}

// A block encrypted and another decrypted, and what each has to be.
fn both_ways(rt: &impl Print, k: &[u8], plain: [u8; 16], sealed: [u8; 16]) -> io::Result<()> {
    replied(rt, k, "encrypt", aes::encrypt(k, plain), sealed)?;
    replied(rt, k, "decrypt", aes::decrypt(k, sealed), plain)
}

// Appendix A: a key and the last round key of its expansion.
fn expansions(rt: &impl Print) -> io::Result<()> {
    // A.1
    expansion(
        rt,
        b"\x2b\x7e\x15\x16\x28\xae\xd2\xa6\xab\xf7\x15\x88\x09\xcf\x4f\x3c",
        *b"\xd0\x14\xf9\xa8\xc9\xee\x25\x89\xe1\x3f\x0c\xc8\xb6\x63\x0c\xa6",
    )?;
    // A.2
    expansion(
        rt,
        b"\x8e\x73\xb0\xf7\xda\x0e\x64\x52\xc8\x10\xf3\x2b\x80\x90\x79\xe5\x62\xf8\xea\xd2\x52\x2c\x6b\x7b",
        *b"\xe9\x8b\xa0\x6f\x44\x8c\x77\x3c\x8e\xcc\x72\x04\x01\x00\x22\x02",
    )?;
    // A.3
    expansion(
        rt,
        b"\x60\x3d\xeb\x10\x15\xca\x71\xbe\x2b\x73\xae\xf0\x85\x7d\x77\x81\x1f\x35\x2c\x07\x3b\x61\x08\xd7\x2d\x98\x10\xa3\x09\x14\xdf\xf4",
        *b"\xfe\x48\x90\xd1\xe6\x18\x8d\x0b\x04\x6d\xf3\x44\x70\x6c\x63\x1e",
    )
}

// Bytes that count up from 0: the keys of appendix C, and a byte more than the longest.
fn counted() -> [u8; 33] {
    *b"\x00\x01\x02\x03\x04\x05\x06\x07\x08\x09\x0a\x0b\x0c\x0d\x0e\x0f\x10\x11\x12\x13\x14\x15\x16\x17\x18\x19\x1a\x1b\x1c\x1d\x1e\x1f\x20"
}

// Appendix C: one block under a key of each length.
fn blocks(rt: &impl Print) -> io::Result<()> {
    let keys = counted();
    let plain = samples::stepping();
    // C.1
    both_ways(
        rt,
        front(&keys, 16),
        plain,
        *b"\x69\xc4\xe0\xd8\x6a\x7b\x04\x30\xd8\xcd\xb7\x80\x70\xb4\xc5\x5a",
    )?;
    // C.2
    both_ways(
        rt,
        front(&keys, 24),
        plain,
        *b"\xdd\xa9\x7c\xa4\x86\x4c\xdf\xe0\x6e\xaf\x70\xa0\xec\x0d\x71\x91",
    )?;
    // C.3
    both_ways(
        rt,
        front(&keys, 32),
        plain,
        *b"\x8e\xa2\xb7\xca\x51\x67\x45\xbf\xea\xfc\x49\x90\x4b\x49\x60\x89",
    )
}

// No key of AES has so many bytes: refusal 8 of 01, which shows zeros.
fn refused(rt: &impl Print, n: usize) -> io::Result<()> {
    let keys = counted();
    let k = front(&keys, n);
    let block = samples::stepping();
    replied(rt, k, "encrypt", aes::encrypt(k, block), [0; 16])?;
    replied(rt, k, "decrypt", aes::decrypt(k, block), [0; 16])
}

pub fn all(rt: &impl Print) -> io::Result<()> {
    expansions(rt)?;
    blocks(rt)?;
    for n in [0, 15, 17, 23, 31, 33] {
        refused(rt, n)?;
    }
    Ok(())
}
