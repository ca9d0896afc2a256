// Stretches of a package (request 2026-05): their ends around those of blocks, of segments and of the package, under both schemes, the room
// for them, and their refusals in order. Every buffer is full of a5 before the call.
use crate::extra::zeros;
use crate::info::{right, tried, with};
use crate::sheets;
use descriptor::{CHAINED, ECB};
use password::Lock;
use samples::front;
use std::io;

// Where stretches begin and end: from the first block on,
const FIRST_BLOCK: [(u64, u64); 8] = [
    (0, 0),
    (0, 1),
    (0, 15),
    (0, 16),
    (0, 17),
    (15, 15),
    (15, 16),
    (15, 17),
];
// from the second,
const SECOND_BLOCK: [(u64, u64); 6] = [(16, 16), (16, 17), (16, 32), (17, 17), (17, 31), (17, 49)];
// from the last byte of the first segment,
const SEGMENT_END: [(u64, u64); 3] = [(4095, 4095), (4095, 4096), (4095, 4097)];
// from the first block of the second,
const SEGMENT_START: [(u64, u64); 3] = [(4096, 4096), (4096, 4097), (4096, 4112)];
// from its second byte and from its second block,
const SEGMENT_ON: [(u64, u64); 5] = [
    (4097, 4097),
    (4097, 4112),
    (4097, 4113),
    (4112, 4112),
    (4112, 4128),
];
// around its end,
const PACKAGE_END: [(u64, u64); 3] = [(8175, 8192), (8191, 8192), (8192, 8192)];
// past a package of 8,192 bytes, whether or not it has an extra block,
const PAST_THE_END: [(u64, u64); 3] = [(8191, 8193), (8192, 8193), (8193, 8193)];
// over many blocks from the first two on,
const FROM_THE_START: [(u64, u64); 5] = [(0, 8192), (0, 8193), (15, 4096), (16, 4097), (17, 4112)];
// and from the segment's end on.
const FROM_THE_MIDDLE: [(u64, u64); 3] = [(4095, 8192), (4096, 8192), (4097, 8191)];
// Of 17 bytes: 20,
const OUT_OF_RANGE: [(u64, u64); 3] = [(1, 0), (17, 16), (17, 18)];
// 20 with ends of which all eight bytes count,
const FAR: [(u64, u64); 2] = [(4294967296, 4294967297), (4294967297, 17)];
// 20 with the largest number and with 16 broken too, and 16 alone.
const LARGEST: [(u64, u64); 4] = [
    (0xffffffffffffffff, 17),
    (0, 18),
    (0, 0xffffffffffffffff),
    (0, 17),
];

// A stretch into a buffer of so many bytes.
fn open<const N: usize>(
    rt: &impl Print,
    what: &str,
    lock: Lock,
    stream: &[u8],
    from: u64,
    to: u64,
    mut out: [u8; N],
) -> io::Result<()> {
    let given = stretch::open(&lock, stream, from, to, &mut out);
    print!(rt; "stretch {what}from {from} to {to}")?;
    sheets::left(rt, given, &out)
}

// Each pair of ends.
fn each<const N: usize>(
    rt: &impl Print,
    what: &str,
    lock: Lock,
    stream: &[u8],
    ends: &[(u64, u64)],
    out: [u8; N],
) -> io::Result<()> {
    for &(from, to) in ends {
        open(rt, what, lock, stream, from, to, out)?;
    }
    Ok(())
}

// Into a buffer of 40 bytes, one of 8,300, one of as many as the stretch has, and one of a byte less.
fn rooms(rt: &impl Print, lock: Lock, stream: &[u8]) -> io::Result<()> {
    each(rt, "", lock, stream, &FIRST_BLOCK, [0xa5; 40])?;
    each(rt, "", lock, stream, &SECOND_BLOCK, [0xa5; 40])?;
    each(rt, "", lock, stream, &SEGMENT_END, [0xa5; 40])?;
    each(rt, "", lock, stream, &SEGMENT_START, [0xa5; 40])?;
    each(rt, "", lock, stream, &SEGMENT_ON, [0xa5; 40])?;
    each(rt, "", lock, stream, &PACKAGE_END, [0xa5; 40])?;
    each(rt, "", lock, stream, &PAST_THE_END, [0xa5; 40])?;
    each(rt, "", lock, stream, &FROM_THE_START, [0xa5; 8300])?;
    each(rt, "", lock, stream, &FROM_THE_MIDDLE, [0xa5; 8300])?;
    open(
        rt,
        "room for it alone, ",
        lock,
        stream,
        4095,
        4112,
        [0xa5; 17],
    )?;
    open(
        rt,
        "room one byte short, ",
        lock,
        stream,
        4095,
        4112,
        [0xa5; 16],
    )
}

// Stretches of the first n bytes of the pattern.
fn table(rt: &impl Print, what: &str, lock: Lock, n: usize, extra: bool) -> io::Result<()> {
    let (stream, size) = sheets::seal_pattern(rt, what, lock, n, extra)?;
    rooms(rt, lock, front(&stream, size))
}

pub fn tables(rt: &impl Print) -> io::Result<()> {
    let short = samples::info_128();
    let middle = samples::info_192();
    let long = samples::info_256();
    let extra = "8,192 bytes with an extra block";
    println!(rt; "AES-128, stretches")?;
    table(rt, "8,193 bytes", right(&short, ECB), 8193, false)?;
    println!(rt; "AES-192, stretches")?;
    table(rt, extra, right(&middle, ECB), 8192, true)?;
    println!(rt; "AES-128, stretches, chained")?;
    table(rt, "8,193 bytes", right(&short, CHAINED), 8193, false)?;
    println!(rt; "AES-256, stretches, chained")?;
    table(rt, extra, right(&long, CHAINED), 8192, true)
}

// The first n bytes of zeros after a StreamSize, and 20 broken too.
fn backward(rt: &impl Print, what: &str, lock: Lock, size: u64, n: usize) -> io::Result<()> {
    open(rt, what, lock, front(&zeros(size), n), 1, 0, [0xa5; 16])
}

// 13 to 15.
fn misfit(rt: &impl Print, lock: Lock) -> io::Result<()> {
    backward(
        rt,
        "of 7 bytes of StreamSize 2^64 - 1, ",
        lock,
        0xffffffffffffffff,
        7,
    )?;
    backward(rt, "of StreamSize 2^32 + 17, ", lock, 4294967313, 40)?;
    backward(rt, "of one block more than StreamSize 17, ", lock, 17, 56)
}

// What comes before the stream is looked at: 11, 12 and 19, and 10, which `unhashed` breaks.
fn locked(rt: &impl Print, lock: Lock, unhashed: Lock) -> io::Result<()> {
    let other = Lock { scheme: 3, ..lock };
    backward(rt, "256 units, ", tried(lock, &[0x61; 256]), 17, 40)?;
    backward(rt, "a wrong password, ", tried(lock, &[]), 17, 40)?;
    backward(rt, "scheme 3, ", other, 17, 40)?;
    backward(rt, "VerifierHashSize 0, ", unhashed, 17, 40)
}

// 20, and then 16.
fn misplaced(rt: &impl Print, lock: Lock) -> io::Result<()> {
    let zeros = zeros(17);
    let stream = front(&zeros, 40);
    each(rt, "of 17 bytes, ", lock, stream, &OUT_OF_RANGE, [0xa5; 16])?;
    each(rt, "of 17 bytes, ", lock, stream, &FAR, [0xa5; 16])?;
    each(rt, "of 17 bytes, ", lock, stream, &LARGEST, [0xa5; 16])
}

fn refusals_under(rt: &impl Print, scheme: u64) -> io::Result<()> {
    let info = samples::info_128();
    let unhashed = with(info, 188, 0);
    let lock = right(&info, scheme);
    misplaced(rt, lock)?;
    misfit(rt, lock)?;
    locked(rt, lock, right(&unhashed, scheme))
}

pub fn refusals(rt: &impl Print) -> io::Result<()> {
    println!(rt; "stretches refused")?;
    refusals_under(rt, ECB)?;
    println!(rt; "stretches refused, chained")?;
    refusals_under(rt, CHAINED)
}
