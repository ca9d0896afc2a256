// The eighty rounds (FIPS 180-4 4.1.1, 4.2.1, 6.1.2), in four spans of twenty: within a span the range of t is known, so that
// the compiler drops the `match` and unrolls the rounds.
ghost use Rattle.std.specs.Prelude.{◌≡◌, ℕ, ◌+◌, ◌%◌, ◌^◌, ◌<◌, ◌≤◌};
ghost use Rattle.sha1_rounds.specs.Compression as fips;
ghost use Rattle.sha1_rounds.specs.declared.State.{State};

use crate::State;
use crate::constants::RoundWords;

// x rotated left by n places (3.2).
#[tactic(auto, unfolding(crate::specs::Compression::rotl))]
pub fn rotl(n: u32, x: u32) -> u32
    requires { (0 < n) × (n < 32) }
    ensures { result ≡ fips.rotl n x }
{
    x.rotate_left(n)
}

#[tactic(auto, unfolding(crate::specs::Compression::ch))]
fn ch(x: u32, y: u32, z: u32) -> u32
    ensures { result ≡ fips.ch x y z }
{
    (x & y) ^ (!x & z)
}

#[tactic(auto, unfolding(crate::specs::Compression::parity))]
fn parity(x: u32, y: u32, z: u32) -> u32
    ensures { result ≡ fips.parity x y z }
{
    x ^ y ^ z
}

#[tactic(auto, unfolding(crate::specs::Compression::maj))]
fn maj(x: u32, y: u32, z: u32) -> u32
    ensures { result ≡ fips.maj x y z }
{
    (x & y) ^ (x & z) ^ (y & z)
}

// The function of round t.
// kept: a match as 4.1.1 has it, and no closure for each span: where a span is inlined none is left of it
#[tactic(auto, unfolding(crate::specs::Compression::mix, crate::specs::Compression::ranged))]
fn mix(t: usize, x: u32, y: u32, z: u32) -> u32
    ensures { result ≡ fips.mix t x y z }
{
    match t {
        0..=19 => ch(x, y, z),
        20..=39 => parity(x, y, z),
        40..=59 => maj(x, y, z),
        _ => parity(x, y, z),
    }
}

// Round t with the round word k and the schedule's word v.
#[tactic(auto, unfolding(crate::specs::Compression::step))]
fn step(t: usize, k: u32, v: u32, s: State) -> State
    requires { k ≡ fips.constant t }
    ensures { result ≡ fips.step t v s }
{
    let mixed = rotl(5, s.a).wrapping_add(mix(t, s.b, s.c, s.d));
    let a = mixed.wrapping_add(s.e).wrapping_add(k).wrapping_add(v);
    State {
        a,
        b: s.a,
        c: rotl(30, s.b),
        d: s.c,
        e: s.d,
    }
}

// The rounds from `from` up to `to`, after those before; k is the word of each of them.
#[tactic(auto, using(crate::proofs::Steps::rounds_more))]
pub fn span(w: &[u32; 80], k: u32, from: usize, to: usize, s: State) -> State
    requires { (from ≤ to) × ((to ≤ 80) × ((t : ℕ) → from ≤ t → t < to → k ≡ fips.constant t)) }
    ensures { (x : State) → s ≡ fips.steps w.now from x → result ≡ fips.steps w.now to x }
{
    let mut r = s;
    for t in from..to {
        r = step(t, k, w[t], r);
    }
    r
}

// All the rounds.
#[tactic(auto, using(crate::proofs::Steps::round_word))]
pub fn eighty(w: &[u32; 80], k: &RoundWords, s: State) -> State
    ensures { result ≡ fips.steps w.now 80 s }
{
    let first = span(w, k.words[0], 0, 20, s);
    let second = span(w, k.words[1], 20, 40, first);
    let third = span(w, k.words[2], 40, 60, second);
    span(w, k.words[3], 60, 80, third)
}

// Two states word by word.
#[tactic(auto, unfolding(crate::specs::Compression::sums))]
pub fn sums(s: State, r: State) -> State
    ensures { result ≡ fips.sums s r }
{
    State {
        a: s.a.wrapping_add(r.a),
        b: s.b.wrapping_add(r.b),
        c: s.c.wrapping_add(r.c),
        d: s.d.wrapping_add(r.d),
        e: s.e.wrapping_add(r.e),
    }
}
