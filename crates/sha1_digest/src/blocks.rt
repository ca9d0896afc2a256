// A message's blocks, one after the other (FIPS 180-4 5.2.1, 6.1.2), and the hash's bytes.
ghost use Rattle.std.specs.Prelude.{◌≡◌, ◌+◌, ◌*◌, ◌≤◌, ◌<◌, length};
ghost use Rattle.sha1_digest.specs.Sha1 as fips;
ghost use Rattle.sha1_digest.specs.Ending.{Ends};

use sha1_rounds::{State, compress, round_words, start};

// The sixteen words of the block at `at`.
#[tactic(auto, using(crate::proofs::Chains::block_none))]
fn block(p: &[u8], at: usize) -> [u32; 16]
    requires { at + 64 ≤ length p.now }
    ensures { result ≡ fips.block_words p.now at 16 }
{
    let mut m = [0u32; 16];
    for t in 0..16 {
        m[t] = octets::be32(p, at + 4 * t);
    }
    m
}

// The sixteen words of block i of the padded message: of the message itself, or of the blocks that end it.
#[tactic(auto, using(crate::proofs::Padded::length_pad, crate::proofs::Padded::own_block, crate::proofs::Padded::ending_block))]
fn padded_block(m: &[u8], tail: &[u8], i: usize) -> [u32; 16]
    requires { Ends m.now tail.now × (64 * i < length (fips.pad m.now)) }
    ensures { result ≡ fips.block_words (fips.pad m.now) (64 * i) 16 }
{
    let whole = m.len() / 64;
    if i < whole {
        block(m, 64 * i)
    } else {
        block(tail, 64 * (i - whole))
    }
}

// The state after the first n blocks of the padded message.
#[tactic(auto, using(crate::proofs::Chains::chain_none, crate::proofs::Chains::chain_more))]
pub fn chain(m: &[u8], tail: &[u8], n: usize) -> State
    requires { Ends m.now tail.now × (64 * n ≤ length (fips.pad m.now)) }
    ensures { result ≡ fips.chain (fips.pad m.now) n fips.start }
{
    let k = round_words();
    let mut s = start();
    for i in 0..n {
        let words = padded_block(m, tail, i);
        s = compress(s, &words, &k);
    }
    s
}

// The five words, high byte first.
#[tactic(auto, using(crate::proofs::Padded::output_law))]
pub fn output(s: State) -> [u8; 20]
    ensures { result ≡ fips.output s }
{
    let mut b = [0u8; 20];
    octets::put_be32(&mut b, 0, s.a);
    octets::put_be32(&mut b, 4, s.b);
    octets::put_be32(&mut b, 8, s.c);
    octets::put_be32(&mut b, 12, s.d);
    octets::put_be32(&mut b, 16, s.e);
    b
}
