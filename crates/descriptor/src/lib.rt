// EncryptionInfo of Standard encryption, parsed or refused (01, "EncryptionInfo, byte for byte"; 004 2.3.4.5, 000 section 2).
//
//     let descriptor = descriptor::parse(info, descriptor::ECB)?;
//
// Both Flags, ProviderType, the Reserved fields, the name's text and the opaque bytes after it are not judged. The verifier's place
// comes from HeaderSize alone, never from the name's text. By which scheme the package's blocks go together stands nowhere in the file:
// whoever asks says it, and it is judged last and kept with the fields.

#![tactic(auto)]

ghost use Rattle.std.specs.Prelude.{◌≡◌, ◌/◌, ◌++◌};
ghost use Rattle.answers.specs.Refusals.{answer_of};
ghost use Rattle.answers.specs.Rules.{first_of};
ghost use Rattle.descriptor.specs.Info as stream;

use answers::{Refusal, rule};
use octets::{le16, le32, part};

// The schemes: each block by itself (000 section 7), and chained in segments (001, 003).
// kept: what `parse` is given is a number, since the C interface gives any (ropeshadow_parse), which rule 19 judges
pub const ECB: u64 = 1;

pub const CHAINED: u64 = 2;

// A key's length as the file counts it. It is no count of bytes, and can't be used as one.
#[derive(Clone, Copy, Debug, PartialEq, Eq)]
pub struct BitCount(pub u32);

// A key's length as everything but the file counts it.
#[derive(Clone, Copy, Debug, PartialEq, Eq)]
pub struct ByteCount(pub usize);

impl From<BitCount> for ByteCount {
    ghost from_gives = { λ bits bytes. bytes ≡ record { 0 = bits.0 / 8 } };

    fn from(bits: BitCount) -> ByteCount {
        ByteCount((bits.0 / 8) as usize)
    }
}

// What an AlgID stands for.
#[derive(Clone, Copy, Debug, PartialEq, Eq)]
pub struct Suite {
    pub bits: BitCount,
    pub rounds: usize,
}

// The numbers of EncryptionInfo that are judged, as the file has them: bytes past its end count as 0.
#[derive(Clone, Copy, Debug, PartialEq, Eq)]
pub struct Numbers {
    // How many bytes EncryptionInfo has.
    pub length: usize,
    // EncryptionVersionInfo and the size of EncryptionHeader (004 2.3.4.5).
    pub major: u16,
    pub minor: u16,
    pub header_size: u32,
    // EncryptionHeader (004 2.3.2).
    pub size_extra: u32,
    pub alg_id: u32,
    pub alg_id_hash: u32,
    pub key_size: BitCount,
    // EncryptionVerifier (004 2.3.3).
    pub salt_size: u32,
    pub verifier_hash_size: u32,
}

// What EncryptionInfo says, and the scheme.
#[derive(Clone, Copy, Debug, PartialEq, Eq)]
pub struct Descriptor {
    pub major: u16,
    pub minor: u16,
    pub alg_id: u32,
    pub key_size: ByteCount,
    // The provider name's place, from the start of EncryptionInfo, and its length in bytes.
    pub name_place: usize,
    pub name_length: usize,
    pub salt: [u8; 16],
    pub encrypted_verifier: [u8; 16],
    pub encrypted_verifier_hash: [u8; 32],
    pub scheme: u64,
}

// Key size and rounds of an AlgID, where it is one of the three.
#[tactic(auto, unfolding(crate::specs::Info::suite_of, crate::specs::Info::look_up, crate::specs::Info::algorithms))]
pub fn suite_of(alg_id: u32) -> Result<Suite, Refusal>
    ensures { stream.suite_reply result ≡ stream.suite_of alg_id }
{
    let (bits, rounds) = match alg_id {
        0x660e => (128, 10),
        0x660f => (192, 12),
        0x6610 => (256, 14),
        _ => return Err(Refusal::AlgId),
    };
    Ok(Suite {
        bits: BitCount(bits),
        rounds,
    })
}

// The AlgID whose key has so many bits.
#[tactic(auto, unfolding(crate::specs::Info::alg_id_of, crate::specs::Info::look_up, crate::specs::Info::algorithms))]
pub fn alg_id_of(bits: BitCount) -> Option<u32>
    ensures { result ≡ stream.unless_zero (stream.alg_id_of bits.0) }
{
    let n = bits.0;
    match n {
        128 => Some(0x660e),
        192 => Some(0x660f),
        256 => Some(0x6610),
        _ => None,
    }
}

#[tactic(auto, unfolding(crate::specs::Info::bad_version))]
fn bad_version(major: u16, minor: u16) -> bool
    ensures { result ≡ stream.bad_version major minor }
{
    minor != 2 || major < 2 || 4 < major
}

#[tactic(auto, unfolding(crate::specs::Info::bad_header_size))]
fn bad_header_size(h: u32) -> bool
    ensures { result ≡ stream.bad_header_size h }
{
    h < 32 || 4096 < h
}

#[tactic(auto, unfolding(crate::specs::Info::bad_name))]
fn bad_name(h: u32, x: u32) -> bool
    ensures { result ≡ stream.bad_name h x }
{
    h < 32 || h - 32 < x || (h - 32 - x) % 2 != 0
}

#[tactic(auto, unfolding(crate::specs::Info::bad_scheme))]
fn bad_scheme(scheme: u64) -> bool
    ensures { result ≡ stream.bad_scheme scheme }
{
    scheme != ECB && scheme != CHAINED
}

// The numbers at their places; EncryptionVerifier comes right after EncryptionHeader, which begins at 12.
fn numbers_of(s: &[u8]) -> Numbers
    ensures { result ≡ stream.numbers_of s.now }
{
    let header_size = le32(s, 8);
    let h = header_size as usize;
    Numbers {
        length: s.len(),
        major: le16(s, 0),
        minor: le16(s, 2),
        header_size,
        size_extra: le32(s, 16),
        alg_id: le32(s, 20),
        alg_id_hash: le32(s, 24),
        key_size: BitCount(le32(s, 28)),
        salt_size: le32(s, 12 + h),
        verifier_hash_size: le32(s, 48 + h),
    }
}

// The rules 1 to 10, in order, and then the one on the scheme.
#[tactic(auto, unfolding(answers::specs::Rules::first_of, crate::specs::Info::scheme_rules), using(crate::proofs::Algorithms::suite_unknown))]
fn answer(n: Numbers, scheme: u64) -> Result<(), Refusal>
    ensures { answer_of result ≡ first_of (stream.number_rules n ++ stream.scheme_rules scheme) }
{
    let h = n.header_size;
    rule(n.length < 12, Refusal::InfoShort)?;
    rule(bad_version(n.major, n.minor), Refusal::Version)?;
    rule(bad_header_size(h), Refusal::HeaderSize)?;
    rule(n.length != h as usize + 84, Refusal::InfoLength)?;
    rule(bad_name(h, n.size_extra), Refusal::NameLength)?;
    let suite = suite_of(n.alg_id)?;
    rule(n.alg_id_hash != 0x8004, Refusal::AlgIdHash)?;
    rule(n.key_size.0 != suite.bits.0, Refusal::KeySize)?;
    rule(n.salt_size != 16, Refusal::SaltSize)?;
    rule(n.verifier_hash_size != 20, Refusal::VerifierHashSize)?;
    rule(bad_scheme(scheme), Refusal::Scheme)
}

// The fields of a stream whose numbers break no rule.
#[tactic(auto, unfolding(crate::specs::Info::numbers_of), using(crate::proofs::Laws::bounds))]
fn described(s: &[u8], n: Numbers, scheme: u64) -> Descriptor
    requires { (n ≡ stream.numbers_of s.now) × (first_of (stream.info_rules s.now) ≡ 0) }
    ensures { result ≡ stream.described s.now scheme }
{
    let h = n.header_size as usize;
    Descriptor {
        major: n.major,
        minor: n.minor,
        alg_id: n.alg_id,
        key_size: n.key_size.into(),
        name_place: 44,
        name_length: h - 32 - (n.size_extra as usize),
        salt: part(s, 16 + h),
        encrypted_verifier: part(s, 32 + h),
        encrypted_verifier_hash: part(s, 52 + h),
        scheme,
    }
}

// The descriptor of a stream that breaks none of the rules 1 to 10 and of a scheme that does not break 19, else the first broken rule's
// refusal.
#[tactic(auto, unfolding(crate::specs::Info::parse_rules, crate::specs::Info::info_rules), using(crate::proofs::Laws::accepted))]
pub fn parse(info: &[u8], scheme: u64) -> Result<Descriptor, Refusal>
    ensures { stream.parsed_of result ≡ stream.parsed info.now scheme }
{
    let numbers = numbers_of(info);
    answer(numbers, scheme)?;
    Ok(described(info, numbers, scheme))
}
