// Opens what is there of a locked document whose download was cut, or of one with too many bytes (request 2026-13): the whole blocks that
// are present, at most StreamSize bytes of them, and zeros for the rest of the package.
//
//     let lock = Lock { info, password, scheme: descriptor::ECB };
//     let Rescued { size, counts } = rescue::open(&lock, stream, &mut out)?;
//     .. of the first size bytes of out the first counts.recovered are the package's ..
//
// A call says in full what it leaves, as `sheet::open` does, and refuses as it does, but for a ciphertext of another length (no. 15): on
// `Ok` the recovered bytes and then zeros to the end of the output; on a refusal the output as it was.

#![tactic(auto)]

ghost use Rattle.std.specs.Prelude.{◌≡◌, ◌≤◌};
ghost use Rattle.answers.specs.Refusals.{answer_of};
ghost use Rattle.answers.specs.Rules.{first_of};
ghost use Rattle.password.specs.Lock.{asked};
ghost use Rattle.lengths.specs.Lengths.{package_limit};
ghost use Rattle.rescue.specs.Rescue as Rescue;

use answers::{Refusal, rule};
use password::{Lock, Unlocked};

// What a rescue reports: the bytes of the package that were decrypted, the zeros for the rest of it, and the bytes of ciphertext past the
// longest length that no. 15 allows. A last block that is cut counts in none of them.
#[derive(Clone, Copy, Debug, PartialEq, Eq)]
pub struct Counts {
    pub recovered: usize,
    pub zeroed: usize,
    pub surplus: usize,
}

// What a rescue gives: the package's size, and the counts.
#[derive(Clone, Copy, Debug, PartialEq, Eq)]
pub struct Rescued {
    pub size: usize,
    pub counts: Counts,
}

// What is reported of n bytes of ciphertext of a package of that size: its whole blocks are recovered, at most so many bytes.
#[tactic(auto, unfolding(crate::specs::Rescue::counted, crate::specs::Rescue::recoverable, crate::specs::Rescue::longest))]
fn counted(n: usize, size: usize) -> Counts
    requires { size ≤ package_limit }
    ensures { result ≡ Rescue.counted 16 n size }
{
    let recovered = size.min(n - n % 16);
    let longest = lengths::rounded(true, size);
    Counts {
        recovered,
        zeroed: size - recovered,
        surplus: n.saturating_sub(longest),
    }
}

// The rules on a stream that may be cut and on the room for its package, in order.
#[tactic(auto, unfolding(crate::specs::Rescue::head_rules, lengths::specs::Lengths::size_rules, answers::specs::Rules::first_of, answers::specs::Rules::room_rules))]
fn answer(stream: &[u8], room: usize) -> Result<(), Refusal>
    ensures { answer_of result ≡ first_of (Rescue.head_rules stream.now room) }
{
    rule(stream.len() < 8, Refusal::StreamShort)?;
    let size = lengths::stream_size(stream);
    lengths::package_answer(size)?;
    answers::room_answer(room, size)
}

// Opens what is there of a package stream into out.
pub fn open(lock: &Lock, stream: &[u8], out: &mut [u8]) -> Result<Rescued, Refusal>
    ensures { Rescue.rescued_of result out.new ≡ Rescue.rescued (asked lock.now) stream.now out.old }
{
    let Unlocked { fields, key } = lock.unlock()?;
    answer(stream, out.len())?;
    let size = lengths::stream_size(stream);
    let counts = counted(stream.len() - 8, size);
    let mode = sheet::mode_of(fields, size);
    blocks::decrypt(
        key,
        mode,
        blocks::start(),
        &stream[8..],
        counts.recovered,
        out,
    );
    octets::zero_from(out, counts.recovered);
    Ok(Rescued { size, counts })
}
