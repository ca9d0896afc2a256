// What the segments of a chained package start from (003, "IV derivation"): 002's two vectors, and other segments.
use std::io;

// The starting vector of a segment.
fn start(rt: &impl Print, name: &str, salt: [u8; 16], number: u32) -> io::Result<()> {
    print!(rt; "starting vector {name}: ")?;
    lines::hex(rt, &segments::starting_vector(salt, number))?;
    println!(rt)
}

// The first of a package in 002, then the second, the last of the largest package, and one whose number has four bytes that differ.
pub fn all(rt: &impl Print) -> io::Result<()> {
    start(rt, "002 8", samples::rising(), 0)?;
    start(
        rt,
        "002 8.1",
        *b"\xe8\x82\x66\x49\x0c\x5b\xd1\xee\xbd\x2b\x43\x94\xe3\xf8\x30\xef",
        0,
    )?;
    start(rt, "segment 1, rising salt", samples::rising(), 1)?;
    start(rt, "segment 65,535, rising salt", samples::rising(), 65535)?;
    start(
        rt,
        "segment 0x01020304, rising salt",
        samples::rising(),
        0x01020304,
    )
}
