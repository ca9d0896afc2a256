// The extra block of 003, "Edge case": the choice at sizes that have none, the room that it takes, and the streams that have as many bytes
// as one makes, fewer or more. Every buffer is full of a5 before the call.
use crate::info::right;
use crate::sheets;
use descriptor::ECB;
use password::Lock;
use samples::front;
use std::io;

// The first n letters sealed with the choice, in a buffer of 48 bytes.
fn ignored(rt: &impl Print, what: &str, lock: Lock, n: usize) -> io::Result<()> {
    sheets::seal(
        rt,
        what,
        lock,
        front(b"abcdefghijklmnopq", n),
        true,
        [0xa5; 48],
    )?;
    Ok(())
}

// 4,096 bytes sealed with the choice take 4,120.
fn cramped(rt: &impl Print, lock: Lock) -> io::Result<()> {
    sheets::seal(
        rt,
        "4,096 bytes with an extra block, room one byte short",
        lock,
        &samples::pattern::<4096>(),
        true,
        [0xa5; 4119],
    )?;
    Ok(())
}

pub fn chosen(rt: &impl Print) -> io::Result<()> {
    let info = samples::info_128();
    let lock = right(&info, ECB);
    ignored(rt, "17 bytes, extra block chosen and ignored", lock, 17)?;
    ignored(rt, "16 bytes, extra block chosen and ignored", lock, 16)?;
    ignored(rt, "0 bytes, extra block chosen and ignored", lock, 0)?;
    cramped(rt, lock)
}

// Zeros after a StreamSize, as many bytes as any stream here has.
pub fn zeros(size: u64) -> [u8; 4136] {
    let mut stream = [0u8; 4136];
    octets::put_le64(&mut stream, 0, size);
    stream
}

// The first n bytes of these, refused into a buffer of 16.
pub fn refused(rt: &impl Print, what: &str, lock: Lock, size: u64, n: usize) -> io::Result<()> {
    sheets::refused(rt, what, lock, front(&zeros(size), n))
}

// The one length besides the least that is opened, and then 16 a byte short.
fn opened(rt: &impl Print, lock: Lock) -> io::Result<()> {
    let all = zeros(4096);
    let stream = front(&all, 4120);
    sheets::open(
        rt,
        "an extra block at StreamSize 4,096",
        lock,
        stream,
        [0xa5; 4096],
    )?;
    sheets::open(
        rt,
        "an extra block at StreamSize 4,096, room one byte short",
        lock,
        stream,
        [0xa5; 4095],
    )
}

// 15, with 16 broken too where StreamSize is above 16; and 14, with 15 broken too.
fn disallowed(rt: &impl Print, lock: Lock) -> io::Result<()> {
    refused(rt, "two extra blocks at StreamSize 4,096", lock, 4096, 4136)?;
    refused(rt, "15 bytes more at StreamSize 4,096", lock, 4096, 4119)?;
    refused(rt, "17 bytes more at StreamSize 4,096", lock, 4096, 4121)?;
    refused(rt, "an extra block at StreamSize 0", lock, 0, 24)?;
    refused(rt, "an extra block at StreamSize 16", lock, 16, 40)?;
    refused(rt, "an extra block at StreamSize 17", lock, 17, 56)?;
    refused(rt, "an extra block at StreamSize 4,080", lock, 4080, 4104)?;
    refused(
        rt,
        "an extra block at StreamSize 2^32 + 4,096",
        lock,
        4294971392,
        4120,
    )?;
    refused(
        rt,
        "an extra block at StreamSize 268,439,552",
        lock,
        268439552,
        4120,
    )
}

pub fn lengthened(rt: &impl Print) -> io::Result<()> {
    let info = samples::info_128();
    let lock = right(&info, ECB);
    opened(rt, lock)?;
    disallowed(rt, lock)
}
