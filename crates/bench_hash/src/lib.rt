// SHA-1 by itself for `make bench`, as a program has it that hashes and does nothing else.

#![tactic(auto)]

// The first eight bytes of a hash, as a number.
#[unsafe(no_mangle)]
pub extern "C" fn bench_hash(message: &[u8]) -> u64 {
    sha1_digest::digest(message).map_or(0, |hash| octets::le64(&hash, 0))
}
