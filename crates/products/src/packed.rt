// Bytes of a slice as words, the first lowest, with what the slice's type says of them, that they are bytes; and words moved.
ghost use Rattle.std.specs.Prelude.{◌≡◌, ◌+◌, ◌≤◌, ◌<◌, length, take, drop};
ghost use Rattle.octets.specs.Octets.{Bytes, le_at};
ghost use Rattle.fips197.specs.Products as Products;

// The four bytes at `at`.
pub fn four(s: &[u8], at: usize) -> u32
    requires { at + 4 ≤ length s.now }
    ensures { (result ≡ le_at 4 at s.now) × Bytes (take 4 (drop at s.now)) }
{
    u32::from_le_bytes(octets::part(s, at))
}

// The eight bytes at `at`.
pub fn eight(s: &[u8], at: usize) -> u64
    requires { at + 8 ≤ length s.now }
    ensures { (result ≡ le_at 8 at s.now) × Bytes (take 8 (drop at s.now)) }
{
    u64::from_le_bytes(octets::part(s, at))
}

// A word whose bytes move up by k places, in a circle.
pub fn moved(k: u32, x: u32) -> u32
    requires { k < 4 }
    ensures { result ≡ Products.moved_word k x }
{
    x.rotate_left(8 * k)
}
