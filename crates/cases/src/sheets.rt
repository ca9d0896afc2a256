// Opening and sealing: there and back under each key size, each reply, and the ciphertext of 000 8.1. Every buffer is full of a5
// before the call.
use crate::info::{right, tried};
use answers::Refusal;
use descriptor::ECB;
use password::Lock;
use samples::front;
use std::io;

// How a call ended, of a refused one with size 0, and the whole buffer after it, a long one by its hash.
pub fn left(rt: &impl Print, given: Result<usize, Refusal>, out: &[u8]) -> io::Result<()> {
    let size = given.unwrap_or(0);
    print!(rt; ": answer {} size {size} ", answers::number(given))?;
    if out.len() <= 64 {
        print!(rt; "out ")?;
        lines::hex(rt, out)?;
    } else {
        print!(rt; "SHA-1 of out ")?;
        lines::hex(rt, &sha1_digest::digest(out).unwrap_or([0; 20]))?;
    }
    println!(rt)
}

// Sealed with filling f0 to ff: the buffer, and how many bytes of it are the stream.
pub fn seal<const N: usize>(
    rt: &impl Print,
    what: &str,
    lock: Lock,
    package: &[u8],
    extra: bool,
    mut out: [u8; N],
) -> io::Result<([u8; N], usize)> {
    let filling = *b"\xf0\xf1\xf2\xf3\xf4\xf5\xf6\xf7\xf8\xf9\xfa\xfb\xfc\xfd\xfe\xff";
    let given = sheet::seal(&lock, package, filling, extra, &mut out);
    print!(rt; "seal {what}")?;
    left(rt, given, &out)?;
    Ok((out, given.unwrap_or(0)))
}

pub fn open<const N: usize>(
    rt: &impl Print,
    what: &str,
    lock: Lock,
    stream: &[u8],
    mut out: [u8; N],
) -> io::Result<()> {
    let given = sheet::open(&lock, stream, &mut out);
    print!(rt; "open {what}")?;
    left(rt, given, &out)
}

// The first n bytes of the pattern sealed, 8,193 at most.
pub fn seal_pattern(
    rt: &impl Print,
    what: &str,
    lock: Lock,
    n: usize,
    extra: bool,
) -> io::Result<([u8; 8300], usize)> {
    let all = samples::pattern::<8193>();
    seal(rt, what, lock, front(&all, n), extra, [0xa5; 8300])
}

// There and back, in two buffers of as many bytes.
fn trip<const N: usize>(
    rt: &impl Print,
    what: &str,
    lock: Lock,
    package: &[u8],
    extra: bool,
    out: [u8; N],
) -> io::Result<()> {
    let (stream, size) = seal(rt, what, lock, package, extra, out)?;
    open(rt, what, lock, front(&stream, size), out)
}

// The first n letters.
pub fn short_trip(rt: &impl Print, what: &str, lock: Lock, n: usize) -> io::Result<()> {
    trip(
        rt,
        what,
        lock,
        front(b"abcdefghijklmnopq", n),
        false,
        [0xa5; 48],
    )
}

// The first n bytes of the pattern, 8,193 at most.
pub fn long_trip<const N: usize>(
    rt: &impl Print,
    what: &str,
    lock: Lock,
    n: usize,
    extra: bool,
    out: [u8; N],
) -> io::Result<()> {
    let all = samples::pattern::<8193>();
    trip(rt, what, lock, front(&all, n), extra, out)
}

fn trips(rt: &impl Print, lock: Lock) -> io::Result<()> {
    short_trip(rt, "0 bytes", lock, 0)?;
    short_trip(rt, "1 byte", lock, 1)?;
    short_trip(rt, "15 bytes", lock, 15)?;
    short_trip(rt, "16 bytes", lock, 16)?;
    short_trip(rt, "17 bytes", lock, 17)?;
    long_trip(rt, "4,096 bytes", lock, 4096, false, [0xa5; 4200])?;
    long_trip(
        rt,
        "4,096 bytes with an extra block",
        lock,
        4096,
        true,
        [0xa5; 4200],
    )
}

pub fn round_trips(rt: &impl Print) -> io::Result<()> {
    println!(rt; "AES-128")?;
    trips(rt, right(&samples::info_128(), ECB))?;
    println!(rt; "AES-192")?;
    trips(rt, right(&samples::info_192(), ECB))?;
    println!(rt; "AES-256")?;
    trips(rt, right(&samples::info_256(), ECB))
}

// Into a buffer of 16 bytes, which is left as it is.
pub fn refused(rt: &impl Print, what: &str, lock: Lock, stream: &[u8]) -> io::Result<()> {
    open(rt, what, lock, stream, [0xa5; 16])
}

// The first n bytes of the stream, with another StreamSize.
fn resized(
    rt: &impl Print,
    what: &str,
    lock: Lock,
    stream: [u8; 56],
    size: u64,
    n: usize,
) -> io::Result<()> {
    let mut s = stream;
    octets::put_le64(&mut s, 0, size);
    refused(rt, what, lock, front(&s, n))
}

// 13 to 16, each with a later rule broken too but for the last; StreamSize is read whole.
fn framed(rt: &impl Print, lock: Lock, stream: [u8; 56]) -> io::Result<()> {
    let most = 0xffffffffffffffff;
    resized(rt, "0 bytes", lock, stream, 17, 0)?;
    resized(rt, "7 bytes of StreamSize 2^64 - 1", lock, stream, most, 7)?;
    resized(rt, "StreamSize 2^64 - 1", lock, stream, most, 40)?;
    resized(rt, "StreamSize 2^32 + 17", lock, stream, 4294967313, 40)?;
    resized(rt, "StreamSize 268,435,457", lock, stream, 268435457, 40)?;
    resized(rt, "StreamSize 268,435,456", lock, stream, 268435456, 40)?;
    resized(rt, "StreamSize 16", lock, stream, 16, 40)?;
    resized(rt, "one block short", lock, stream, 17, 24)?;
    resized(rt, "one block long", lock, stream, 17, 56)?;
    resized(rt, "one byte long", lock, stream, 17, 41)?;
    resized(rt, "room one byte short", lock, stream, 17, 40)
}

// What comes before the stream is looked at, with 3 bytes of it.
fn locked(rt: &impl Print, lock: Lock, stream: &[u8]) -> io::Result<()> {
    let wrong = tried(lock, &[]);
    let short = Lock {
        info: front(lock.info, 11),
        ..wrong
    };
    refused(
        rt,
        "11 bytes of EncryptionInfo, 3 of the stream",
        short,
        stream,
    )?;
    refused(rt, "256 units, 3 bytes", tried(lock, &[0x61; 256]), stream)?;
    refused(rt, "a wrong password, 3 bytes", wrong, stream)
}

// Sealing: 12, and 16 a byte short.
fn unsealed(rt: &impl Print, lock: Lock) -> io::Result<()> {
    let wrong = tried(lock, &[]);
    seal(
        rt,
        "1 byte with a wrong password",
        wrong,
        b"a",
        false,
        [0xa5; 23],
    )?;
    seal(
        rt,
        "1 byte, room one byte short",
        lock,
        b"a",
        false,
        [0xa5; 23],
    )?;
    Ok(())
}

// Of 17 bytes sealed: a stream of 40, with zeros after it to 56.
pub fn refusals(rt: &impl Print) -> io::Result<()> {
    let info = samples::info_128();
    let lock = right(&info, ECB);
    let (stream, _) = seal(
        rt,
        "the stream below",
        lock,
        b"abcdefghijklmnopq",
        false,
        [0xa5; 56],
    )?;
    framed(rt, lock, stream)?;
    locked(rt, lock, &stream[..3])?;
    unsealed(rt, lock)
}

// The two blocks of 000 8.1 under its key, as a package of 32 bytes.
pub fn published(rt: &impl Print) -> io::Result<()> {
    let mut stream = [0u8; 40];
    octets::put_le64(&mut stream, 0, 32);
    let first = *b"\xdc\xb1\x36\x7f\xc3\x80\x37\x86\x57\xfc\x11\xe7\xb9\x68\xb3\xa6";
    octets::copy(&first, 0, 16, &mut stream, 8);
    let second = *b"\x28\xbf\xf7\xd8\xac\xa2\x61\xce\xca\x05\x91\xbc\xd8\x1b\x00\x75";
    octets::copy(&second, 0, 16, &mut stream, 24);
    open(
        rt,
        "000 8.1",
        right(&samples::info_128(), ECB),
        &stream,
        [0xa5; 48],
    )
}
