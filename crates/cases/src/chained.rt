// Schemes: packages chained, there and back, packages opened as the other scheme's, the refusals of a chained package, and numbers that
// are no scheme. Every buffer is full of a5 before the call.
use crate::extra::refused;
use crate::info::{right, tried, verdict, with};
use crate::sheets;
use descriptor::{CHAINED, ECB};
use password::Lock;
use samples::front;
use std::io;

// Sizes on both sides of a segment's end.
fn trips(rt: &impl Print, lock: Lock) -> io::Result<()> {
    sheets::short_trip(rt, "0 bytes", lock, 0)?;
    sheets::short_trip(rt, "1 byte", lock, 1)?;
    sheets::short_trip(rt, "16 bytes", lock, 16)?;
    sheets::short_trip(rt, "17 bytes", lock, 17)?;
    long_trip(rt, "4,095 bytes", lock, 4095, false)?;
    long_trip(rt, "4,096 bytes", lock, 4096, false)?;
    long_trip(rt, "4,096 bytes with an extra block", lock, 4096, true)?;
    long_trip(rt, "4,097 bytes", lock, 4097, false)?;
    long_trip(rt, "4,112 bytes", lock, 4112, false)?;
    long_trip(rt, "8,192 bytes", lock, 8192, false)?;
    long_trip(rt, "8,192 bytes with an extra block", lock, 8192, true)?;
    long_trip(rt, "8,193 bytes", lock, 8193, false)
}

// In buffers of 8,300 bytes.
fn long_trip(rt: &impl Print, what: &str, lock: Lock, n: usize, extra: bool) -> io::Result<()> {
    sheets::long_trip(rt, what, lock, n, extra, [0xa5; 8300])
}

pub fn round_trips(rt: &impl Print) -> io::Result<()> {
    println!(rt; "AES-128, chained")?;
    trips(rt, right(&samples::info_128(), CHAINED))?;
    println!(rt; "AES-192, chained")?;
    trips(rt, right(&samples::info_192(), CHAINED))?;
    println!(rt; "AES-256, chained")?;
    trips(rt, right(&samples::info_256(), CHAINED))
}

// 17 letters sealed under one scheme, opened under another.
fn swapped(rt: &impl Print, what: &str, one: Lock, other: u64) -> io::Result<()> {
    let (stream, size) = sheets::seal(rt, what, one, b"abcdefghijklmnopq", false, [0xa5; 48])?;
    let lock = Lock {
        scheme: other,
        ..one
    };
    sheets::open(rt, what, lock, front(&stream, size), [0xa5; 48])
}

// Nothing in a stream tells its scheme: it opens under either, and gives the package under one.
pub fn swaps(rt: &impl Print) -> io::Result<()> {
    let info = samples::info_128();
    swapped(
        rt,
        "17 bytes chained, then opened as ECB",
        right(&info, CHAINED),
        ECB,
    )?;
    swapped(
        rt,
        "17 bytes ECB, then opened as chained",
        right(&info, ECB),
        CHAINED,
    )
}

// 11 and 12 in opening, with a later rule broken too.
fn locked(rt: &impl Print, lock: Lock) -> io::Result<()> {
    let long = tried(lock, &[0x61; 256]);
    let wrong = tried(lock, &[]);
    refused(rt, "chained, 256 units, 3 bytes", long, 0, 3)?;
    refused(rt, "chained, a wrong password, 3 bytes", wrong, 0, 3)
}

// 13 to 16, each but the last with a later rule broken too.
fn unopened(rt: &impl Print, lock: Lock) -> io::Result<()> {
    refused(
        rt,
        "chained, 7 bytes of StreamSize 2^64 - 1",
        lock,
        0xffffffffffffffff,
        7,
    )?;
    refused(rt, "chained, StreamSize 2^32 + 17", lock, 4294967313, 40)?;
    refused(rt, "chained, one block long at StreamSize 17", lock, 17, 56)?;
    refused(
        rt,
        "chained, an extra block at StreamSize 4,112",
        lock,
        4112,
        4136,
    )?;
    refused(rt, "chained, room one byte short", lock, 17, 40)
}

// One byte sealed into a buffer of 23, a byte short.
fn cramped(rt: &impl Print, what: &str, lock: Lock) -> io::Result<()> {
    sheets::seal(rt, what, lock, b"a", false, [0xa5; 23])?;
    Ok(())
}

pub fn refusals(rt: &impl Print) -> io::Result<()> {
    let info = samples::info_128();
    let lock = right(&info, CHAINED);
    let wrong = tried(lock, &[]);
    locked(rt, lock)?;
    unopened(rt, lock)?;
    cramped(rt, "chained, 1 byte with a wrong password", wrong)?;
    cramped(rt, "chained, 1 byte, room one byte short", lock)
}

// Each call under a number that is no scheme, and no other rule broken.
fn alone(rt: &impl Print, what: &str, lock: Lock) -> io::Result<()> {
    verdict(rt, what, lock)?;
    refused(rt, what, lock, 16, 24)?;
    sheets::seal(rt, what, lock, b"a", false, [0xa5; 24])?;
    Ok(())
}

// 19 where a later rule is broken too, and the rules before it: those of EncryptionInfo, which `unhashed` breaks.
fn judged(rt: &impl Print, lock: Lock, unhashed: Lock) -> io::Result<()> {
    verdict(rt, "scheme 3, 256 units", tried(lock, &[0x61; 256]))?;
    verdict(rt, "scheme 3, a wrong password", tried(lock, &[]))?;
    verdict(rt, "scheme 3, VerifierHashSize 0", unhashed)
}

fn opened(rt: &impl Print, lock: Lock, unhashed: Lock) -> io::Result<()> {
    let units = [0x61; 256];
    let long = tried(lock, &units);
    let wrong = tried(lock, &[]);
    let both = tried(unhashed, &units);
    let short = Lock {
        info: front(lock.info, 11),
        ..lock
    };
    let none = [0; 3];
    sheets::refused(rt, "scheme 3, 256 units, 3 bytes", long, &none)?;
    sheets::refused(rt, "scheme 3, a wrong password, 3 bytes", wrong, &none)?;
    sheets::refused(rt, "scheme 3, VerifierHashSize 0, 256 units", both, &none)?;
    sheets::refused(rt, "scheme 3, 11 bytes of EncryptionInfo", short, &none)
}

pub fn unnumbered(rt: &impl Print) -> io::Result<()> {
    let info = samples::info_128();
    alone(rt, "scheme 0", right(&info, 0))?;
    alone(rt, "scheme 3", right(&info, 3))?;
    alone(rt, "scheme 2^32 + 1", right(&info, 4294967297))?;
    alone(rt, "scheme 2^64 - 1", right(&info, 0xffffffffffffffff))?;
    let other = with(info, 188, 0);
    let lock = right(&info, 3);
    let unhashed = right(&other, 3);
    judged(rt, lock, unhashed)?;
    opened(rt, lock, unhashed)?;
    cramped(
        rt,
        "scheme 3, a wrong password, room one byte short",
        tried(lock, &[]),
    )?;
    cramped(
        rt,
        "scheme 3, VerifierHashSize 0, room one byte short",
        unhashed,
    )
}
