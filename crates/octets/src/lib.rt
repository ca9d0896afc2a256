// Numbers of bytes at a place of a slice, and parts of slices laid, copied and zeroed (01, "EncryptionInfo, byte for byte":
// numbers are little-endian; FIPS 180-4 3.1: the words of a hash are big-endian).
//
// The reads low byte first are total: a byte past the end counts as 0, so a caller needs no test before it reads.

#![tactic(auto)]

ghost use Rattle.std.specs.Prelude.{◌≡◌, [], ◌∷◌, ◌+◌, ◌^◌, ◌≤◌, ◌<◌, length, get_or, take, drop};
ghost use Rattle.std.proofs.Math.Seq.{paste};
ghost use Rattle.octets.specs.Octets.{le_at, le_bytes, be_at, be_bytes, zero_from};

// The byte at `at`, 0 past the end.
pub fn byte(s: &[u8], at: usize) -> u8
    ensures { result ≡ get_or s.now at 0 }
{
    s.get(at).copied().unwrap_or(0)
}

// The N bytes from `at` on, 0 for each past the end.
fn padded<const N: usize>(s: &[u8], at: usize) -> [u8; N]
    requires { at + N < 2 ^ 64 }
    ensures { le_at N 0 result ≡ le_at N at s.now }
{
    let mut a = [0; N];
    for i in 0..N {
        a[i] = byte(s, at + i);
    }
    a
}

// kept: a function for each width, since the library's conversions are each type's own and no trait's
// The two bytes at `at`, low byte first.
pub fn le16(s: &[u8], at: usize) -> u16
    requires { at + 2 < 2 ^ 64 }
    ensures { result ≡ le_at 2 at s.now }
{
    u16::from_le_bytes(padded(s, at))
}

// The four bytes at `at`, low byte first.
pub fn le32(s: &[u8], at: usize) -> u32
    requires { at + 4 < 2 ^ 64 }
    ensures { result ≡ le_at 4 at s.now }
{
    u32::from_le_bytes(padded(s, at))
}

// The eight bytes at `at`, low byte first.
pub fn le64(s: &[u8], at: usize) -> u64
    requires { at + 8 < 2 ^ 64 }
    ensures { result ≡ le_at 8 at s.now }
{
    u64::from_le_bytes(padded(s, at))
}

// The four bytes at `at`, high byte first.
pub fn be32(s: &[u8], at: usize) -> u32
    requires { at + 4 ≤ length s.now }
    ensures { result ≡ be_at 4 at s.now }
{
    u32::from_be_bytes(part(s, at))
}

// v in two bytes at `at`, low byte first.
pub fn put_le16(d: &mut [u8], at: usize, v: u16)
    requires { at + 2 ≤ length d.old }
    ensures { d.new ≡ paste d.old at (le_bytes 2 v) 2 }
{
    copy(&v.to_le_bytes(), 0, 2, d, at);
}

// v in four bytes at `at`, low byte first.
pub fn put_le32(d: &mut [u8], at: usize, v: u32)
    requires { at + 4 ≤ length d.old }
    ensures { d.new ≡ paste d.old at (le_bytes 4 v) 4 }
{
    copy(&v.to_le_bytes(), 0, 4, d, at);
}

// v in eight bytes at `at`, low byte first.
pub fn put_le64(d: &mut [u8], at: usize, v: u64)
    requires { at + 8 ≤ length d.old }
    ensures { d.new ≡ paste d.old at (le_bytes 8 v) 8 }
{
    copy(&v.to_le_bytes(), 0, 8, d, at);
}

// v in four bytes at `at`, high byte first.
pub fn put_be32(d: &mut [u8], at: usize, v: u32)
    requires { at + 4 ≤ length d.old }
    ensures { d.new ≡ paste d.old at (be_bytes 4 v) 4 }
{
    copy(&v.to_be_bytes(), 0, 4, d, at);
}

// The n bytes of s from `from` on, laid at `at` of d.
// kept: by numbers beside the slices: its clause gives all of d, where proofs over copied parts of d didn't close (key.rt, fields.rt)
pub fn copy(s: &[u8], from: usize, n: usize, d: &mut [u8], at: usize)
    requires { (from + n ≤ length s.now) × (at + n ≤ length d.old) }
    ensures { d.new ≡ paste d.old at (drop from s.now) n }
{
    d[at..at + n].copy_from_slice(&s[from..from + n]);
}

// The N bytes at `at`.
pub fn part<const N: usize>(s: &[u8], at: usize) -> [u8; N]
    requires { at + N ≤ length s.now }
    ensures { result ≡ take N (drop at s.now) }
{
    let mut a = [0; N];
    a.copy_from_slice(&s[at..at + N]);
    a
}

// Zeros from `from` to the end of d.
#[tactic(auto, unfolding(crate::specs::Octets::zero_from))]
pub fn zero_from(d: &mut [u8], from: usize)
    ensures { d.new ≡ zero_from from d.old }
{
    if from < d.len() {
        d[from..].fill(0);
    }
}
