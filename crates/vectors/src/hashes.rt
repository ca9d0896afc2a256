// SHA-1: FIPS 180-4's examples that fit, and lengths at which the padding changes its shape.
use std::io;

// The answer and the hash of a message; a refused one shows zeros.
fn hashed(rt: &impl Print, message: &[u8]) -> io::Result<()> {
    let given = sha1_digest::digest(message);
    print!(rt; ": answer {} ", answers::number(given))?;
    lines::hex(rt, &given.unwrap_or([0; 20]))?;
    println!(rt)
}

// A message of its own.
fn message(rt: &impl Print, name: &str, m: &[u8]) -> io::Result<()> {
    print!(rt; "sha1 {name}")?;
    hashed(rt, m)
}

// The first n bytes of the pattern.
fn patterned(rt: &impl Print, s: &[u8], n: usize) -> io::Result<()> {
    print!(rt; "sha1 pattern {n}")?;
    hashed(rt, samples::front(s, n))
}

pub fn all(rt: &impl Print) -> io::Result<()> {
    message(rt, "empty", b"")?;
    message(rt, "abc", b"abc")?;
    message(
        rt,
        "two blocks",
        b"abcdbcdecdefdefgefghfghighijhijkijkljklmklmnlmnomnopnopq",
    )?;
    let s = samples::pattern::<65537>();
    for n in [1, 55, 56, 63, 64, 65, 119, 120, 4096, 65536, 65537] {
        patterned(rt, &s, n)?;
    }
    Ok(())
}
