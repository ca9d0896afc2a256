// Opens one stretch of the package of a locked document: its bytes from one place up to, not including, another (request 2026-05). Of the
// ciphertext only the blocks that the stretch meets are decrypted, and the block before the first of them is read, to which it may be
// chained.
//
//     let lock = Lock { info, password, scheme: descriptor::ECB };
//     let size = stretch::open(&lock, stream, 100, 200, &mut out)?;
//     .. the first size bytes of out ..
//
// A call says in full what it leaves, as `sheet::open` does: on `Ok` those bytes of the package and then zeros to the end of the output; on
// a refusal the output as it was.

#![tactic(auto)]

ghost use Rattle.std.specs.Prelude.{◌≡◌, ◌-◌};
ghost use Rattle.answers.specs.Ended.{left};
ghost use Rattle.answers.specs.Refusals.{answer_of, reply_of};
ghost use Rattle.answers.specs.Rules.{first_of};
ghost use Rattle.password.specs.Lock.{asked};
ghost use Rattle.stretch.specs.Stretch as Stretch;

mod ciphertext;

use answers::Refusal;
use ciphertext::Ciphertext;
use password::{Lock, Unlocked};

// How many bytes a stretch has; none where it ends before it begins.
fn span(from: usize, to: usize) -> usize
    ensures { result ≡ to - from }
{
    to.saturating_sub(from)
}

// The rule on a stretch's ends: refused where it ends before it begins, or past a package of that size.
#[tactic(auto, unfolding(crate::specs::Stretch::range_rules, crate::specs::Stretch::out_of_range, answers::specs::Rules::first_of))]
fn range_answer(from: usize, to: usize, size: usize) -> Result<(), Refusal>
    ensures { answer_of result ≡ first_of (Stretch.range_rules from to size) }
{
    answers::rule(to < from || size < to, Refusal::Range)
}

// The rules on a stream's lengths, on the ends of a stretch of its package and on the room for it, in order.
#[tactic(auto, unfolding(answers::specs::Rules::after), using(crate::proofs::Laws::part_in_turn))]
fn answer(stream: &[u8], from: usize, to: usize, room: usize) -> Result<(), Refusal>
    ensures { answer_of result ≡ first_of (Stretch.part_rules stream.now from to room) }
{
    let size = lengths::stream_size(stream);
    lengths::stream_answer(stream.len(), size)?;
    range_answer(from, to, size)?;
    answers::room_answer(room, span(from, to))
}

// Opens the bytes of a package from one place up to another into out.
#[tactic(auto, using(crate::proofs::Laws::stretch_locked, crate::proofs::Laws::stretch_unfit))]
pub fn open(
    lock: &Lock,
    stream: &[u8],
    from: u64,
    to: u64,
    out: &mut [u8],
) -> Result<usize, Refusal>
    ensures { left (reply_of result) out.new ≡ Stretch.stretched (asked lock.now) stream.now from to out.old }
{
    let first = from as usize;
    let end = to as usize;
    let Unlocked { fields, key } = lock.unlock()?;
    answer(stream, first, end, out.len())?;
    let mode = sheet::mode_of(fields, lengths::stream_size(stream));
    let blocks = &stream[8..];
    let size = span(first, end);
    Ciphertext { key, mode, blocks }.open_bytes(first, size, out);
    Ok(answers::done(size, out))
}
