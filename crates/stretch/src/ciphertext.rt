// The ciphertext of a package (004 2.3.4.4), opened from any of its bytes on: the blocks that these lie in are decrypted, and of the
// others the one before the first of them is read, to which it may be chained.
ghost use Rattle.std.specs.Prelude.{◌≡◌, ◌+◌, ◌-◌, ◌*◌, ◌/◌, ◌%◌, ◌^◌, ◌≤◌, ◌<◌, min, length, drop};
ghost use Rattle.std.proofs.Math.Seq.{paste};
ghost use Rattle.blocks.specs.Blocks.{size_of};
ghost use Rattle.stretch.specs.Stretch as Stretch;

use aes::RoundKeys;
use blocks::{Mode, Place};

// What follows StreamSize, with the key and the mode that it opens under.
#[derive(Clone, Copy)]
pub struct Ciphertext<'a> {
    pub key: RoundKeys,
    pub mode: Mode,
    pub blocks: &'a [u8],
    ghost limited: { size_of mode < 2 ^ 44 },
}

// How many of `size` bytes stand before the next block begins.
fn head(from: usize, size: usize) -> usize
    ensures { result ≡ min size ((16 - from % 16) % 16) }
{
    size.min((16 - from % 16) % 16)
}

impl Ciphertext<'_> {
    ghost use Rattle.stretch.specs.Plain.{plain};

    // The block before a block; before the first there are zeros.
    #[tactic(auto, unfolding(crate::specs::Stretch::block_before, steps::specs::Steps::unit))]
    fn block_before(&self, number: usize) -> [u8; 16]
        requires { 16 * number ≤ length self.now.blocks.now }
        ensures { result ≡ Stretch.block_before self.now.blocks.now number }
    {
        if number == 0 {
            return [0u8; 16];
        }
        octets::part(self.blocks, 16 * number - 16)
    }

    // The first `size` bytes from a block of the package on, at the front of out.
    #[tactic(auto, using(crate::proofs::Laid::lent_blocks))]
    fn open_blocks(&self, number: usize, size: usize, out: &mut [u8])
        requires within { 16 * number + size ≤ 16 * (length self.now.blocks.now / 16) }
        requires room { size ≤ length out.old }
        ensures { out.new ≡ paste out.old 0 (drop (16 * number) (plain self.now)) size }
    {
        let before = self.block_before(number);
        let place = Place { number, before };
        let at = 16 * number;
        blocks::decrypt(self.key, self.mode, place, &self.blocks[at..], size, out);
    }

    // `size` bytes of the package, all in one block, at the front of out.
    #[tactic(auto, using(crate::proofs::Laid::lent_within))]
    fn open_within(&self, from: usize, size: usize, out: &mut [u8])
        requires within { from + size ≤ 16 * (length self.now.blocks.now / 16) }
        requires one_block { from % 16 + size ≤ 16 }
        requires room { size ≤ length out.old }
        ensures { out.new ≡ paste out.old 0 (drop from (plain self.now)) size }
    {
        if size == 0 {
            return;
        }
        let mut block = [0u8; 16];
        self.open_blocks(from / 16, 16, &mut block);
        octets::copy(&block, from % 16, size, out, 0);
    }

    // `size` bytes of the package at the front of out: those before the next block begins, and then block after block.
    #[tactic(auto, using(crate::proofs::Laid::lent_bytes))]
    pub fn open_bytes(&self, from: usize, size: usize, out: &mut [u8])
        requires within { from + size ≤ 16 * (length self.now.blocks.now / 16) }
        requires room { size ≤ length out.old }
        ensures { out.new ≡ paste out.old 0 (drop from (plain self.now)) size }
    {
        let n = head(from, size);
        self.open_within(from, n, out);
        self.open_blocks((from + n) / 16, size - n, &mut out[n..]);
    }
}
