// EncryptionInfo written: each key size and names at their limits, with the verdicts on what was written, and each reply. Every
// buffer is full of a5 before the call.
use crate::info::{right, tried, verdict};
use crate::sheets;
use descriptor::{BitCount, ECB};
use samples::front;
use std::io;

// Written with salt 00 to 0f, the verifier of 000 8.4 and filling f0 to fb: the buffer, and how many bytes of it are EncryptionInfo.
fn write<const N: usize>(
    rt: &impl Print,
    what: &str,
    bits: u32,
    password: &[u16],
    name: &[u8],
    mut out: [u8; N],
) -> io::Result<([u8; N], usize)> {
    let given = writer::write_info(
        BitCount(bits),
        password,
        name,
        samples::rising(),
        samples::stepping(),
        *b"\xf0\xf1\xf2\xf3\xf4\xf5\xf6\xf7\xf8\xf9\xfa\xfb",
        &mut out,
    );
    print!(rt; "write {what}")?;
    sheets::left(rt, given, &out)?;
    Ok((out, given.unwrap_or(0)))
}

// Written for the password "password", and the verdicts on what was written.
fn judged<const N: usize>(
    rt: &impl Print,
    what: &str,
    bits: u32,
    name: &[u8],
    out: [u8; N],
) -> io::Result<()> {
    let (out, size) = write(rt, what, bits, &samples::PASSWORD, name, out)?;
    let lock = right(front(&out, size), ECB);
    verdict(rt, "right", lock)?;
    verdict(rt, "wrong", tried(lock, &[]))
}

// With the usual name, which every sample has at 44, and with the shortest and the longest.
pub fn written(rt: &impl Print) -> io::Result<()> {
    let sample = samples::info_128();
    let usual = &sample[44..152];
    judged(rt, "AES-128", 128, usual, [0xa5; 240])?;
    judged(rt, "AES-192", 192, usual, [0xa5; 240])?;
    judged(rt, "AES-256", 256, usual, [0xa5; 240])?;
    judged(rt, "no name", 128, b"", [0xa5; 116])?;
    let longest = samples::pattern::<4064>();
    judged(rt, "a name of 4,064 bytes", 256, &longest, [0xa5; 4200])
}

// 3, 5, 8, 11 and 16, with room for any but the last.
fn each(rt: &impl Print, name: &[u8], usual: &[u8]) -> io::Result<()> {
    let right = &samples::PASSWORD;
    write(
        rt,
        "a name of 4,065 bytes",
        128,
        right,
        front(name, 4065),
        [0xa5; 4200],
    )?;
    write(rt, "a name of 4,066 bytes", 128, right, name, [0xa5; 4200])?;
    write(
        rt,
        "a name of 107 bytes",
        128,
        right,
        front(usual, 107),
        [0xa5; 240],
    )?;
    write(rt, "127 bits", 127, right, usual, [0xa5; 240])?;
    write(rt, "0 bits", 0, right, usual, [0xa5; 240])?;
    write(rt, "512 bits", 512, right, usual, [0xa5; 240])?;
    write(rt, "256 units", 128, &[0x61; 256], usual, [0xa5; 240])?;
    write(rt, "room one byte short", 128, right, usual, [0xa5; 223])?;
    Ok(())
}

// Those before 16, with a later rule broken too.
fn both(rt: &impl Print, name: &[u8], usual: &[u8]) -> io::Result<()> {
    let right = &samples::PASSWORD;
    let long = [0x61; 256];
    write(
        rt,
        "a name of 4,065 bytes, room of 16",
        128,
        right,
        front(name, 4065),
        [0xa5; 16],
    )?;
    write(
        rt,
        "a name of 4,066 bytes, 127 bits, room of 16",
        127,
        right,
        name,
        [0xa5; 16],
    )?;
    write(
        rt,
        "a name of 107 bytes, 127 bits, room of 16",
        127,
        right,
        front(usual, 107),
        [0xa5; 16],
    )?;
    write(
        rt,
        "127 bits, 256 units, room of 16",
        127,
        &long,
        usual,
        [0xa5; 16],
    )?;
    write(rt, "256 units, room of 16", 128, &long, usual, [0xa5; 16])?;
    Ok(())
}

pub fn unwritten(rt: &impl Print) -> io::Result<()> {
    let name = samples::pattern::<4066>();
    let sample = samples::info_128();
    each(rt, &name, &sample[44..152])?;
    both(rt, &name, &sample[44..152])
}
