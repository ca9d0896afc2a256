// How long a package, its filling and its stream may be (01, "The package stream" and rules 13 to 15; 004 2.3.4.4). It is all on numbers:
// whoever opens or seals a stream asks here. The rule on room is no part of it, since each call writes something else.
//
//     let size = lengths::stream_size(stream);
//     lengths::stream_answer(stream.len(), size)?;

#![tactic(auto)]

ghost use Rattle.std.specs.Prelude.{◌≡◌, not, ◌≤◌};
ghost use Rattle.answers.specs.Refusals.{answer_of};
ghost use Rattle.answers.specs.Rules.{first_of};
ghost use Rattle.lengths.specs.Lengths as Lengths;

use answers::{Refusal, rule};

// The most bytes of a package.
const LIMIT: usize = 268435456;

// StreamSize: all eight bytes, so that no larger size passes for a smaller one.
#[tactic(auto, unfolding(crate::specs::Lengths::stream_size))]
pub fn stream_size(stream: &[u8]) -> usize
    ensures { result ≡ Lengths.stream_size stream.now }
{
    octets::le64(stream, 0) as usize
}

// Whether a package of that size may have an extra block: it is above 0 and a multiple of 4,096 (003, "Edge case").
#[tactic(auto, unfolding(crate::specs::Lengths::takes_extra))]
fn takes_extra(size: usize) -> bool
    ensures { result ≡ Lengths.takes_extra size }
{
    0 < size && size.is_multiple_of(4096)
}

// A size brought to a multiple of 16, or a whole block past it where that is chosen and the size takes one. Within the limit nothing
// wraps.
#[tactic(auto, unfolding(crate::specs::Lengths::rounded, crate::specs::Lengths::filling_for, crate::specs::Lengths::least, crate::specs::Lengths::package_limit))]
pub fn rounded(extra: bool, size: usize) -> usize
    requires { size ≤ Lengths.package_limit }
    ensures { result ≡ Lengths.rounded extra size }
{
    if extra && takes_extra(size) {
        size + 16
    } else {
        size.next_multiple_of(16)
    }
}

// Whether n bytes are not the ciphertext of a package of that size, neither without an extra block nor with one.
#[tactic(auto, unfolding(crate::specs::Lengths::length_allowed))]
fn bad_ciphertext(n: usize, size: usize) -> bool
    requires { size ≤ Lengths.package_limit }
    ensures { result ≡ not (Lengths.length_allowed size n) }
{
    n != rounded(false, size) && n != rounded(true, size)
}

// The rules 13 to 15, in order, on a stream of n bytes with that StreamSize.
#[tactic(auto, unfolding(crate::specs::Lengths::length_rules, crate::specs::Lengths::large, crate::specs::Lengths::package_limit, answers::specs::Rules::first_of))]
pub fn stream_answer(n: usize, size: usize) -> Result<(), Refusal>
    ensures { answer_of result ≡ first_of (Lengths.length_rules n size) }
{
    rule(n < 8, Refusal::StreamShort)?;
    rule(LIMIT < size, Refusal::StreamSize)?;
    rule(bad_ciphertext(n - 8, size), Refusal::StreamLength)
}

// Rule 14 on a package of that size, which is to be sealed.
#[tactic(auto, unfolding(crate::specs::Lengths::size_rules, crate::specs::Lengths::large, crate::specs::Lengths::package_limit, answers::specs::Rules::first_of))]
pub fn package_answer(size: usize) -> Result<(), Refusal>
    ensures { answer_of result ≡ first_of (Lengths.size_rules size) }
{
    rule(LIMIT < size, Refusal::StreamSize)
}
