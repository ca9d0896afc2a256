// The round keys of a stream: an expanded key whose number of rounds the ciphers take (FIPS 197 5).
ghost use Rattle.std.specs.Prelude.{◌<◌, ◌≤◌};

// The bytes of the round keys, and zeros after the last.
#[derive(Clone, Copy)]
pub struct RoundKeys {
    pub bytes: [u8; 240],
    pub rounds: usize,
    ghost in_range: { (0 < rounds) × (rounds ≤ 14) },
}
