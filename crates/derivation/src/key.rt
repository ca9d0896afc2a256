// The key's bytes (000 4.1, 4.2, 5.1 and 5.2.2).
ghost use Rattle.std.specs.Prelude.{◌≡◌, ◌++◌, ◌+◌, ◌*◌, ◌≤◌, ◌<◌, length, take};
ghost use Rattle.sha1_digest.specs.Sha1.{sha1, output};
ghost use Rattle.aes.specs.Aes.{expanded};
ghost use Rattle.derivation.specs.Key as Key;

use crate::turns;
use aes::Expanded;
use descriptor::ByteCount;
use sha1_digest::State;

// 64 bytes of c, with b xored into the first of them.
#[tactic(auto, using(crate::proofs::Message::masked_none, crate::proofs::Message::masked_more, crate::proofs::Message::masked_all))]
fn masked(c: u8, b: [u8; 20]) -> [u8; 64]
    ensures { result ≡ Key.masked c b }
{
    let mut m = [c; 64];
    for (i, x) in b.iter().enumerate() {
        m[i] = c ^ *x;
    }
    m
}

// The hash of B under a mask.
fn masked_hash(c: u8, b: [u8; 20]) -> [u8; 20]
    ensures { result ≡ sha1 (Key.masked c b) }
{
    let m = masked(c, b);
    sha1_digest::output(sha1_digest::hash(&m))
}

// X then Y.
fn derived(b: [u8; 20]) -> [u8; 40]
    ensures { result ≡ Key.derived b }
{
    let x = masked_hash(0x36, b);
    let y = masked_hash(0x5c, b);
    let mut k = [0u8; 40];
    octets::copy(&x, 0, 20, &mut k, 0);
    octets::copy(&y, 0, 20, &mut k, 20);
    k
}

// A password and the salt that it is hashed with. What is hashed of them is bounded, as a password is (01, rule 11).
#[derive(Clone, Copy)]
pub struct Salted<'a> {
    pub salt: [u8; 16],
    pub password: &'a [u16],
    ghost short: { length password.now ≤ 255 },
}

impl Salted<'_> {
    // Salt and password: two bytes a unit, low byte first, after the salt's sixteen.
    fn message(&self) -> [u8; 526]
        ensures { take (16 + 2 * length self.now.password.now) result ≡ self.now.salt ++ Key.unit_bytes self.now.password.now }
    {
        let mut b = [0u8; 526];
        octets::copy(&self.salt, 0, 16, &mut b, 0);
        for (i, unit) in self.password.iter().enumerate() {
            octets::put_le16(&mut b, 16 + 2 * i, *unit);
        }
        b
    }

    // H: the state after salt and password and all the turns.
    #[tactic(auto, unfolding(crate::specs::Key::password_hash))]
    pub fn hash(&self) -> State
        ensures { output result ≡ Key.password_hash self.now.salt self.now.password.now }
    {
        let m = self.message();
        turns::spun(sha1_digest::hash(&m[..16 + 2 * self.password.len()]))
    }

    // The forty bytes of which a key of any size is the first.
    #[tactic(auto, unfolding(crate::specs::Key::material))]
    pub fn material(&self) -> [u8; 40]
        ensures { result ≡ Key.material self.now.salt self.now.password.now }
    {
        derived(sha1_digest::output(turns::block_hash(0, self.hash())))
    }

    // The key of so many bytes, expanded.
    #[tactic(auto, unfolding(crate::specs::Key::key_bytes))]
    pub fn expanded_key(&self, size: ByteCount) -> Expanded
        requires { size.0 ≤ 40 }
        ensures { result ≡ expanded (Key.key_bytes size.0 self.now.salt self.now.password.now) }
    {
        let n = size.0;
        let bytes = self.material();
        aes::expand(&bytes[..n])
    }
}
