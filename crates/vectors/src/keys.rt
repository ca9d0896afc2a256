// From password to key: 01's key cases (from 000 section 8 and 002) and 000 8.4's verifier.
ghost use Rattle.std.specs.Prelude.{◌≤◌, length};

use derivation::Salted;
use password::Lock;
use sha1_digest::State;
use std::io;

// A hash's words, as its bytes.
fn hash(rt: &impl Print, name: &str, s: State) -> io::Result<()> {
    print!(rt; " {name} ")?;
    lines::hex(rt, &sha1_digest::output(s))
}

// H, B and the keys of the three sizes.
fn derivation(rt: &impl Print, name: &str, salt: [u8; 16], password: &[u16]) -> io::Result<()>
    requires { length password.now ≤ 255 }
{
    print!(rt; "key {name}:")?;
    let salted = Salted { salt, password };
    let h = salted.hash();
    hash(rt, "H", h)?;
    hash(rt, "B", derivation::block_hash(0, h))?;
    let k = salted.material();
    for n in [16, 24, 32] {
        print!(rt; " {n} ")?;
        lines::hex(rt, samples::front(&k, n))?;
    }
    println!(rt)
}

// The verdict on a password.
fn verdict(rt: &impl Print, name: &str, password: &[u16]) -> io::Result<()> {
    let lock = Lock {
        info: &samples::info_256(),
        password,
        scheme: descriptor::ECB,
    };
    println!(rt;
        "verdict {name}: answer {}",
        answers::number(lock.verdict())
    )
}

pub fn all(rt: &impl Print) -> io::Result<()> {
    derivation(
        rt,
        "password, rising salt",
        samples::rising(),
        &samples::PASSWORD,
    )?;
    derivation(
        rt,
        "Password1234_",
        *b"\xe8\x82\x66\x49\x0c\x5b\xd1\xee\xbd\x2b\x43\x94\xe3\xf8\x30\xef",
        &[
            0x50, 0x61, 0x73, 0x73, 0x77, 0x6f, 0x72, 0x64, 0x31, 0x32, 0x33, 0x34, 0x5f,
        ],
    )?;
    derivation(
        rt,
        "password, salt 00 to ff",
        samples::stepping(),
        &samples::PASSWORD,
    )?;
    derivation(rt, "empty, rising salt", samples::rising(), &[])?;
    derivation(
        rt,
        "0 and half a pair, rising salt",
        samples::rising(),
        &[0, 0xd800, 0xffff],
    )?;
    verdict(rt, "000 8.4", &samples::PASSWORD)?;
    verdict(
        rt,
        "000 8.4, one unit off",
        &[0x70, 0x61, 0x73, 0x73, 0x77, 0x6f, 0x72, 0x65],
    )
}
