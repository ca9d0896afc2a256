// What is left of a package whose stream is cut or too long (request 2026-13), under both schemes, streams that opening answers with 15, and
// the refusals in order. Every buffer is full of a5 before the call.
use crate::extra::zeros;
use crate::info::{right, tried, with};
use crate::sheets;
use descriptor::{CHAINED, ECB};
use password::Lock;
use rescue::Counts;
use samples::front;
use std::io;

// How long the stream is that is left, 8 bytes of StreamSize with it. Of 33 bytes: with no ciphertext, in each block and at its end, whole,
// and with a surplus of 1, 16 and 40.
const OF_33: [usize; 13] = [8, 9, 23, 24, 25, 39, 40, 41, 55, 56, 57, 72, 96];
// Of 0 bytes: whole, and with the same surplus.
const OF_0: [usize; 4] = [8, 9, 24, 48];
// Of 4,096: in the segment and at its end,
const SEGMENT: [usize; 6] = [8, 23, 4087, 4088, 4103, 4104];
// in the extra block, with all of it, and with the same surplus.
const EXTRA_BLOCK: [usize; 6] = [4105, 4119, 4120, 4121, 4136, 4160];
// Of 8,193: in the first segment, at its end, and in the second,
const SEGMENTS: [usize; 7] = [8, 24, 4103, 4104, 4105, 4120, 5000];
// at its end, in the third, whole, and with the same surplus.
const LAST_SEGMENT: [usize; 6] = [8200, 8215, 8216, 8217, 8232, 8256];

// Into a buffer of so many bytes, with the counts, of a refused call zeros.
fn open<const N: usize>(
    rt: &impl Print,
    what: &str,
    lock: Lock,
    stream: &[u8],
    mut out: [u8; N],
) -> io::Result<()> {
    let given = rescue::open(&lock, stream, &mut out);
    let none = Counts {
        recovered: 0,
        zeroed: 0,
        surplus: 0,
    };
    let Counts {
        recovered,
        zeroed,
        surplus,
    } = given.map_or(none, |r| r.counts);
    let n = stream.len();
    print!(rt;
        "rescue {what}, a stream of {n}, recovered {recovered} zeroed {zeroed} surplus {surplus}"
    )?;
    sheets::left(rt, given.map(|r| r.size), &out)
}

// Each length of the stream.
fn each<const N: usize>(
    rt: &impl Print,
    what: &str,
    lock: Lock,
    stream: &[u8],
    lengths: &[usize],
    out: [u8; N],
) -> io::Result<()> {
    for &length in lengths {
        open(rt, what, lock, front(stream, length), out)?;
    }
    Ok(())
}

// A sheet of 33 bytes and one of 0, into a buffer of 40; zeros stand after the whole stream.
fn short(rt: &impl Print, scheme: u64) -> io::Result<()> {
    let info = samples::info_128();
    let lock = right(&info, scheme);
    let (stream, _) = sheets::seal_pattern(rt, "33 bytes", lock, 33, true)?;
    each(rt, "33 bytes", lock, &stream, &OF_33, [0xa5; 40])?;
    let (stream, _) = sheets::seal_pattern(rt, "0 bytes", lock, 0, true)?;
    each(rt, "0 bytes", lock, &stream, &OF_0, [0xa5; 40])
}

// A segment with its extra block, into one of 4,200.
fn one_segment(rt: &impl Print, scheme: u64) -> io::Result<()> {
    let info = samples::info_192();
    let lock = right(&info, scheme);
    let what = "4,096 bytes with an extra block";
    let (stream, _) = sheets::seal_pattern(rt, what, lock, 4096, true)?;
    each(rt, what, lock, &stream, &SEGMENT, [0xa5; 4200])?;
    each(rt, what, lock, &stream, &EXTRA_BLOCK, [0xa5; 4200])
}

// Two segments and a byte, into one of 8,300.
fn segments(rt: &impl Print, scheme: u64) -> io::Result<()> {
    let info = samples::info_256();
    let lock = right(&info, scheme);
    let what = "8,193 bytes";
    let (stream, _) = sheets::seal_pattern(rt, what, lock, 8193, true)?;
    each(rt, what, lock, &stream, &SEGMENTS, [0xa5; 8300])?;
    each(rt, what, lock, &stream, &LAST_SEGMENT, [0xa5; 8300])
}

// The first n bytes of zeros after a StreamSize, opened, which 15 forbids, and rescued.
fn unopened(rt: &impl Print, what: &str, lock: Lock, size: u64, n: usize) -> io::Result<()> {
    let zeros = zeros(size);
    let stream = front(&zeros, n);
    sheets::open(rt, what, lock, stream, [0xa5; 48])?;
    open(rt, what, lock, stream, [0xa5; 48])
}

fn misfit(rt: &impl Print, lock: Lock) -> io::Result<()> {
    unopened(rt, "one block long at StreamSize 0", lock, 0, 24)?;
    unopened(rt, "one block long at StreamSize 16", lock, 16, 40)?;
    unopened(rt, "one block short at StreamSize 17", lock, 17, 24)?;
    unopened(rt, "one byte short at StreamSize 17", lock, 17, 39)?;
    unopened(rt, "one byte long at StreamSize 17", lock, 17, 41)
}

// The first n bytes of zeros after a StreamSize, into a buffer of 16 bytes, which is left as it is.
fn sized(rt: &impl Print, what: &str, lock: Lock, size: u64, n: usize) -> io::Result<()> {
    open(rt, what, lock, front(&zeros(size), n), [0xa5; 16])
}

// 13 and 14, with 16 broken too, and then 16, whether or not the stream is cut.
fn framed(rt: &impl Print, lock: Lock) -> io::Result<()> {
    let cramped = "StreamSize 17, room one byte short";
    sized(rt, "StreamSize 2^64 - 1", lock, 0xffffffffffffffff, 7)?;
    sized(rt, "StreamSize 2^32 + 17", lock, 4294967313, 40)?;
    sized(rt, "StreamSize 268,435,457", lock, 268435457, 40)?;
    sized(rt, "StreamSize 268,435,456", lock, 268435456, 40)?;
    sized(rt, cramped, lock, 17, 40)?;
    sized(rt, cramped, lock, 17, 8)
}

// What comes before the stream is looked at, each with a later rule broken too: 11, 12 and 19, and 10, which `unhashed` breaks.
fn locked(rt: &impl Print, lock: Lock, unhashed: Lock) -> io::Result<()> {
    let wrong = tried(lock, &[]);
    sized(rt, "256 units", tried(lock, &[0x61; 256]), 0, 3)?;
    sized(rt, "a wrong password", wrong, 0, 3)?;
    sized(
        rt,
        "scheme 3, a wrong password",
        Lock { scheme: 3, ..wrong },
        0,
        3,
    )?;
    sized(rt, "scheme 3, VerifierHashSize 0", unhashed, 0, 3)
}

fn rescued(rt: &impl Print, scheme: u64) -> io::Result<()> {
    short(rt, scheme)?;
    one_segment(rt, scheme)?;
    segments(rt, scheme)?;
    misfit(rt, right(&samples::info_128(), scheme))
}

fn refusals(rt: &impl Print, scheme: u64) -> io::Result<()> {
    let info = samples::info_128();
    let unhashed = with(info, 188, 0);
    let lock = right(&info, scheme);
    framed(rt, lock)?;
    locked(rt, lock, right(&unhashed, 3))
}

pub fn all(rt: &impl Print) -> io::Result<()> {
    println!(rt; "rescues")?;
    rescued(rt, ECB)?;
    println!(rt; "rescues refused")?;
    refusals(rt, ECB)?;
    println!(rt; "rescues, chained")?;
    rescued(rt, CHAINED)?;
    println!(rt; "rescues refused, chained")?;
    refusals(rt, CHAINED)
}
