// EncryptionInfo and the password: a stream that breaks no rule, changed a field or two at a time.
ghost use Rattle.std.specs.Prelude.{◌+◌, ◌≤◌};

use descriptor::{CHAINED, ECB};
use password::Lock;
use samples::front;
use std::io;

// The same with another number in the four bytes at a place.
pub fn with(s: [u8; 224], at: usize, v: u32) -> [u8; 224]
    requires { at + 4 ≤ 224 }
{
    samples::with(s, at, v.to_le_bytes())
}

// An EncryptionInfo with the password that every sample takes.
pub fn right(info: &[u8], scheme: u64) -> Lock {
    Lock {
        info,
        password: &samples::PASSWORD,
        scheme,
    }
}

// The same with another password.
pub fn tried<'a>(lock: Lock<'a>, password: &'a [u16]) -> Lock<'a> {
    Lock { password, ..lock }
}

// What a parse gives, under a scheme; a refused one shows zeros.
fn parsed(rt: &impl Print, what: &str, info: &[u8], scheme: u64) -> io::Result<()> {
    match descriptor::parse(info, scheme) {
        Ok(d) => {
            println!(rt;
                "parse {what}: answer 0 name {} {} key {} scheme {}",
                d.name_place, d.name_length, d.key_size.0, d.scheme
            )
        }
        Err(refusal) => {
            let n = u16::from(refusal);
            println!(rt; "parse {what}: answer {n} name 0 0 key 0 scheme 0")
        }
    }
}

// The same under ECB.
fn parse(rt: &impl Print, what: &str, info: &[u8]) -> io::Result<()> {
    parsed(rt, what, info, ECB)
}

// Streams that break no rule.
fn accepted(rt: &impl Print, s: [u8; 224]) -> io::Result<()> {
    parse(rt, "as it is", &s)?;
    parse(
        rt,
        "flags, provider and reserved fields of any value",
        &with(with(with(s, 4, 0xffffffff), 32, 7), 36, 9),
    )?;
    parse(rt, "a zero unit in the name", &with(s, 60, 0))?;
    parse(rt, "SizeExtra 108", &with(s, 16, 108))
}

// Too short, another version, another HeaderSize, another length.
fn framed(rt: &impl Print, s: [u8; 224]) -> io::Result<()> {
    parse(rt, "0 bytes", b"")?;
    parse(rt, "11 bytes", front(&s, 11))?;
    parse(
        rt,
        "version 4.4 and 223 bytes",
        front(&with(s, 0, 0x00040004), 223),
    )?;
    parse(rt, "HeaderSize 31 and so a wrong length", &with(s, 8, 31))?;
    parse(
        rt,
        "HeaderSize 4,097 and so a wrong length",
        &with(s, 8, 4097),
    )?;
    parse(rt, "HeaderSize 2^32 - 1", &with(s, 8, 0xffffffff))?;
    parse(
        rt,
        "223 bytes and SizeExtra 109",
        front(&with(s, 16, 109), 223),
    )
}

// Other names and algorithms.
fn named(rt: &impl Print, s: [u8; 224]) -> io::Result<()> {
    parse(
        rt,
        "SizeExtra 109 and another AlgID",
        &with(with(s, 16, 109), 20, 0x6801),
    )?;
    parse(rt, "SizeExtra 107, an odd name", &with(s, 16, 107))?;
    parse(
        rt,
        "another AlgID and AlgIDHash",
        &with(with(s, 20, 0x6801), 24, 0x8003),
    )?;
    parse(
        rt,
        "another AlgIDHash and KeySize",
        &with(with(s, 24, 0x8003), 28, 128),
    )?;
    parse(
        rt,
        "AlgID 0x660f with KeySize 128",
        &with(with(s, 20, 0x660f), 28, 128),
    )
}

// Other sizes.
fn sized(rt: &impl Print, s: [u8; 224]) -> io::Result<()> {
    parse(
        rt,
        "KeySize 32, as if in bytes, and SaltSize 15",
        &with(with(s, 28, 32), 152, 15),
    )?;
    parse(
        rt,
        "SaltSize 17 and VerifierHashSize 0",
        &with(with(s, 152, 17), 188, 0),
    )?;
    parse(rt, "VerifierHashSize 0", &with(s, 188, 0))
}

// Schemes: the other one, numbers that are none, and an earlier rule broken too.
fn schemes(rt: &impl Print, s: [u8; 224]) -> io::Result<()> {
    parsed(rt, "scheme 2", &s, CHAINED)?;
    parsed(rt, "scheme 0", &s, 0)?;
    parsed(rt, "scheme 3", &s, 3)?;
    parsed(rt, "scheme 2^32 + 1", &s, 4294967297)?;
    parsed(rt, "scheme 2^64 - 1", &s, 0xffffffffffffffff)?;
    parsed(rt, "scheme 3 and VerifierHashSize 0", &with(s, 188, 0), 3)?;
    parsed(rt, "scheme 3 and 11 bytes", front(&s, 11), 3)
}

pub fn parses(rt: &impl Print) -> io::Result<()> {
    let s = samples::info_256();
    accepted(rt, s)?;
    framed(rt, s)?;
    named(rt, s)?;
    sized(rt, s)?;
    schemes(rt, s)
}

// The verdict on a password.
pub fn verdict(rt: &impl Print, what: &str, lock: Lock) -> io::Result<()> {
    println!(rt;
        "verdict {what}: answer {}",
        answers::number(lock.verdict())
    )
}

// A password that is right or wrong.
fn judged(rt: &impl Print, s: [u8; 224]) -> io::Result<()> {
    let named = with(s, 60, 0);
    let lock = right(&s, ECB);
    verdict(rt, "right", lock)?;
    verdict(rt, "right, a zero unit in the name", right(&named, ECB))?;
    verdict(
        rt,
        "right, one unit more",
        tried(lock, &[0x70, 0x61, 0x73, 0x73, 0x77, 0x6f, 0x72, 0x64, 0]),
    )?;
    verdict(rt, "empty", tried(lock, &[]))
}

// A wrong password of so many units.
fn long(rt: &impl Print, s: [u8; 224], password: &[u16]) -> io::Result<()> {
    let unhashed = with(s, 188, 0);
    let infos = [
        ("wrong", &s[..]),
        ("wrong, VerifierHashSize 0", &unhashed[..]),
        ("wrong, 11 bytes", &s[..11]),
    ];
    for (what, info) in infos {
        print!(rt; "{} units: ", password.len())?;
        verdict(
            rt,
            what,
            Lock {
                info,
                password,
                scheme: ECB,
            },
        )?;
    }
    Ok(())
}

pub fn verdicts(rt: &impl Print) -> io::Result<()> {
    let s = samples::info_256();
    judged(rt, s)?;
    long(rt, s, &[0x61; 255])?;
    long(rt, s, &[0x61; 256])
}
