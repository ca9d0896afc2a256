// A stream of 16-byte blocks under AES, each by itself (000 section 7) or chained in segments (001, 003), out of one lent slice into
// another, from any of its blocks on.
//
//     blocks::decrypt(key, Mode::Ecb, blocks::start(), &stream[8..], size, out);
//
// The key comes expanded. It is copied once a stream, the tables are laid once, and both are lent to each block. A contract says which
// bytes of the output are written and with what; the rest of it is as it was.

#![tactic(auto)]

ghost use Rattle.std.specs.Prelude.{◌≡◌, ◌++◌, ◌+◌, ◌*◌, ◌/◌, ◌%◌, ◌^◌, ◌<◌, ◌≤◌, min, length, take, drop};
ghost use Rattle.std.proofs.Math.Seq.{paste};
ghost use Rattle.fips197.specs.Tables.{sbox, inv_sbox};
ghost use Rattle.fips197.specs.Cipher.{inv_mix_columns, cipher};
ghost use Rattle.fips197.specs.Products.{Shares};
ghost use Rattle.aes_stream.specs.Words.{Forward, Inverse};
ghost use Rattle.steps.specs.Steps.{open_all, seal_all};
ghost use Rattle.blocks.specs.Blocks.{step_by, step_from};
ghost use Rattle.blocks.specs.Blocks as Blocks;

use aes::{RoundKeys, tables};
use aes_stream::{Decryption, Encryption};

// How the blocks of a stream go together.
#[derive(Clone, Copy)]
pub enum Mode {
    // Each by itself.
    Ecb,
    // In the segments of a package of so many bytes, which start from vectors of the salt.
    Chained { salt: [u8; 16], size: usize },
}

// Where a stream is taken up: the number of a block, and the cipher block before it.
#[derive(Clone, Copy)]
pub struct Place {
    pub number: usize,
    pub before: [u8; 16],
}

// Where a stream starts: at block 0, before which stand zeros.
pub fn start() -> Place
    ensures { result ≡ Blocks.stream_start }
{
    let before = [0u8; 16];
    Place { number: 0, before }
}

// The sixteen bytes at `at` of s then filling.
fn filled_block(s: &[u8], filling: &[u8; 16], at: usize) -> [u8; 16]
    requires { at ≤ length s.now }
    ensures { result ≡ take 16 (drop at (s.now ++ filling.now)) }
{
    let left = s.len() - at;
    if 16 <= left {
        return octets::part(s, at);
    }
    let mut b = [0u8; 16];
    octets::copy(s, at, left, &mut b, 0);
    octets::copy(filling, 0, 16 - left, &mut b, left);
    b
}

// A block with another xored in.
fn xored(a: [u8; 16], b: [u8; 16]) -> [u8; 16]
    ensures { result ≡ Blocks.xored a b }
{
    aes_rounds::add_sixteen(&b, 0, a)
}

// kept: the bound on a mode's size stands in each contract, and in no type: `sheet::mode_of` gives the mode of any size
// A plain block at its place with what it is chained to xored in, or as it is where each stands by itself.
fn with_link(mode: Mode, place: Place, block: [u8; 16]) -> [u8; 16]
    requires { Blocks.size_of mode < 2 ^ 44 }
    ensures { result ≡ Blocks.with_link mode place.number place.before block }
{
    match mode {
        Mode::Ecb => block,
        Mode::Chained { salt, size } => {
            if segments::begins(size, place.number) {
                let number = (place.number / 256) as u32;
                return xored(block, segments::starting_vector(salt, number));
            }
            xored(block, place.before)
        }
    }
}

// A block at its place, decrypted.
#[tactic(auto, unfolding(crate::specs::Blocks::step_by, crate::specs::Blocks::mode_step))]
fn open_block(decryption: &Decryption, mode: Mode, place: Place, block: [u8; 16]) -> [u8; 16]
    requires { Blocks.size_of mode < 2 ^ 44 }
    ensures { result ≡ (step_by mode decryption.now.w.now decryption.now.rounds).back place.number place.before block }
{
    with_link(mode, place, decryption.block(block))
}

// `decrypt`, by a decryption that is lent.
fn decrypt_by(
    decryption: &Decryption,
    mode: Mode,
    place: Place,
    src: &[u8],
    size: usize,
    out: &mut [u8],
)
    requires fits { (size ≤ 16 * (length src.now / 16)) × (size ≤ length out.old) × (place.number + size < 2 ^ 64) × (Blocks.size_of mode < 2 ^ 44) }
    ensures { out.new ≡ paste out.old 0 (open_all (step_from place mode decryption.now.w.now decryption.now.rounds) src.now) size }
{
    let mut before = place.before;
    for k in 0..size.div_ceil(16) {
        let block = octets::part(src, 16 * k);
        let here = Place {
            number: place.number + k,
            before,
        };
        let plain = open_block(decryption, mode, here, block);
        let wanted = (size - 16 * k).min(16);
        octets::copy(&plain, 0, wanted, out, 16 * k);
        before = block;
    }
}

// The first `size` bytes of the blocks of src, decrypted, at the front of out. The first of them is the one at the place. A last block of
// which less is wanted is cut.
pub fn decrypt(key: RoundKeys, mode: Mode, place: Place, src: &[u8], size: usize, out: &mut [u8])
    requires fits { (size ≤ 16 * (length src.now / 16)) × (size ≤ length out.old) × (place.number + size < 2 ^ 64) × (Blocks.size_of mode < 2 ^ 44) }
    ensures { out.new ≡ paste out.old 0 (open_all (step_from place mode key.bytes key.rounds) src.now) size }
{
    let shares = products::shares();
    let table = tables::INV_SBOX;
    let mut words = [0u32; 1024];
    aes_stream::lay_inverse(&table, &shares, &mut words);
    let decryption = Decryption {
        w: &key.bytes,
        mixed: &aes_stream::mixed(&key.bytes, &shares),
        rounds: key.rounds,
        table: &table,
        words: &words,
    };
    decrypt_by(&decryption, mode, place, src, size, out);
}

// kept: sealing beside opening: it fills its last block, and each block is chained to the one that was just made
// A block at its place, encrypted.
#[tactic(auto, unfolding(crate::specs::Blocks::step_by, crate::specs::Blocks::mode_step))]
fn seal_block(encryption: &Encryption, mode: Mode, place: Place, block: [u8; 16]) -> [u8; 16]
    requires { Blocks.size_of mode < 2 ^ 44 }
    ensures { result ≡ (step_by mode encryption.now.w.now encryption.now.rounds).there place.number place.before block }
{
    encryption.block(with_link(mode, place, block))
}

// `encrypt`, by an encryption that is lent.
fn encrypt_by(
    encryption: &Encryption,
    mode: Mode,
    place: Place,
    src: &[u8],
    filling: &[u8; 16],
    size: usize,
    out: &mut [u8],
    at: usize,
)
    requires fits { (size % 16 ≡ 0) × (size ≤ length src.now + 16) × (at + size ≤ length out.old) × (place.number + size < 2 ^ 64) × (Blocks.size_of mode < 2 ^ 44) }
    ensures { out.new ≡ paste out.old at (seal_all (step_from place mode encryption.now.w.now encryption.now.rounds) (take size (src.now ++ filling.now))) size }
{
    let mut before = place.before;
    for k in 0..size / 16 {
        let plain = filled_block(src, filling, 16 * k);
        let here = Place {
            number: place.number + k,
            before,
        };
        let sealed = seal_block(encryption, mode, here, plain);
        octets::copy(&sealed, 0, 16, out, at + 16 * k);
        before = sealed;
    }
}

// The first `size` bytes of src then filling, whole blocks, encrypted at `at` of out. The first of them is the one at the place.
pub fn encrypt(
    key: RoundKeys,
    mode: Mode,
    place: Place,
    src: &[u8],
    filling: [u8; 16],
    size: usize,
    out: &mut [u8],
    at: usize,
)
    requires fits { (size % 16 ≡ 0) × (size ≤ length src.now + 16) × (at + size ≤ length out.old) × (place.number + size < 2 ^ 64) × (Blocks.size_of mode < 2 ^ 44) }
    ensures { out.new ≡ paste out.old at (seal_all (step_from place mode key.bytes key.rounds) (take size (src.now ++ filling))) size }
{
    let table = tables::SBOX;
    let mut words = [0u32; 1024];
    aes_stream::lay_forward(&table, &mut words);
    let encryption = Encryption {
        w: &key.bytes,
        rounds: key.rounds,
        table: &table,
        words: &words,
    };
    encrypt_by(&encryption, mode, place, src, &filling, size, out, at);
}
