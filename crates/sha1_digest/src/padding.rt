// A message's last one or two blocks: what is left of it, the one bit, zeros and its length in bits (FIPS 180-4 5.1.1).
ghost use Rattle.std.specs.Prelude.{◌≤◌, length};
ghost use Rattle.sha1_digest.specs.Ending.{Ends};

// The blocks that end a message, in the first of 128 bytes.
#[tactic(auto, using(crate::proofs::Padded::ending_law))]
pub fn ending(m: &[u8]) -> [u8; 128]
    requires { length m.now ≤ 65536 }
    ensures { Ends m.now result }
{
    let mut t = [0u8; 128];
    let n = m.len();
    let rest = n % 64;
    octets::copy(m, n - rest, rest, &mut t, 0);
    t[rest] = 0x80;
    octets::put_be32(&mut t, 64 * ((n + 72) / 64 - n / 64) - 4, 8 * (n as u32));
    t
}
