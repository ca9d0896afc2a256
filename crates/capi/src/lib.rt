// The outside interface: each part of 01's product as a function on lent memory and numbers. It changes nothing but its `out`.
// The crate capi_c exports each to C under the same name, with the same clauses.
//
// Each returns one number, 01's answer + 65,536 x the size; the size is 0 but for a sheet opened, whole or a stretch of it, or sealed and
// a descriptor written. With an answer other than 0 the size is 0 and `out` is as it was (specs/Capi.antt). Sixteen bytes by value are two
// numbers, the first eight bytes and then the last, each low byte first.

#![tactic(auto)]

// kept: EncryptionInfo, password and scheme apart, and numbers for refusals and bytes: the C interface
ghost use Rattle.std.specs.Prelude.{◌≡◌, ◌^◌, ◌<◌};
ghost use Rattle.answers.specs.Refusals.{reply_of};
ghost use Rattle.crossing.specs.Crossing.{reply_word};
ghost use Rattle.password.specs.Lock.{lock_of};
ghost use Rattle.capi.specs.Capi as Capi;
ghost use Rattle.capi.specs.Capi.{outcome};

use answers::Refusal;
use password::Lock;

// The number of a call that gives a value of fixed length, which is written where there is one.
#[tactic(auto, unfolding(crate::specs::Capi::value_outcome))]
fn written<const N: usize>(given: Result<[u8; N], Refusal>, out: &mut [u8; N]) -> u64
    ensures { outcome result out.new ≡ Capi.value_outcome given.entry out.old }
{
    match given {
        Ok(value) => {
            *out = value;
            crossing::word(0, 0)
        }
        Err(refusal) => crossing::word(refusal.into(), 0),
    }
}

// The number of a call that gives how many bytes it has written.
fn sized(given: Result<usize, Refusal>) -> u64
    requires { (reply_of given).size < 2 ^ 48 }
    ensures { result ≡ reply_word (reply_of given).answer (reply_of given).size }
{
    match given {
        Ok(size) => crossing::word(0, size),
        Err(refusal) => crossing::word(refusal.into(), 0),
    }
}

// SHA-1 of a message.
pub fn ropeshadow_sha1(message: &[u8], out: &mut [u8; 20]) -> u64
    ensures { outcome result out.new ≡ Capi.hash_outcome message.now out.old }
{
    written(sha1_digest::digest(message), out)
}

// A block encrypted under a key of 16, 24 or 32 bytes.
pub fn ropeshadow_aes_encrypt(key: &[u8], low: u64, high: u64, out: &mut [u8; 16]) -> u64
    ensures { outcome result out.new ≡ Capi.encrypt_outcome key.now low high out.old }
{
    written(aes::encrypt(key, crossing::sixteen(low, high)), out)
}

// A block decrypted under a key of 16, 24 or 32 bytes.
pub fn ropeshadow_aes_decrypt(key: &[u8], low: u64, high: u64, out: &mut [u8; 16]) -> u64
    ensures { outcome result out.new ≡ Capi.decrypt_outcome key.now low high out.old }
{
    written(aes::decrypt(key, crossing::sixteen(low, high)), out)
}

// The descriptor of EncryptionInfo, with the scheme.
pub fn ropeshadow_parse(info: &[u8], scheme: u64, out: &mut [u8; 88]) -> u64
    ensures { outcome result out.new ≡ Capi.parse_outcome info.now scheme out.old }
{
    match descriptor::parse(info, scheme) {
        Ok(fields) => {
            *out = crossing::descriptor_bytes(fields);
            crossing::word(0, 0)
        }
        Err(refusal) => crossing::word(refusal.into(), 0),
    }
}

// The verdict on a password.
pub fn ropeshadow_verdict(info: &[u8], password: &[u16], scheme: u64) -> u64
    ensures { result ≡ Capi.verdict_word (lock_of info.now password.now scheme) }
{
    let lock = Lock {
        info,
        password,
        scheme,
    };
    crossing::word(answers::number(lock.verdict()), 0)
}

// A package stream opened into out.
pub fn ropeshadow_open(
    info: &[u8],
    password: &[u16],
    scheme: u64,
    stream: &[u8],
    out: &mut [u8],
) -> u64
    ensures { outcome result out.new ≡ Capi.open_outcome (lock_of info.now password.now scheme) stream.now out.old }
{
    let lock = Lock {
        info,
        password,
        scheme,
    };
    sized(sheet::open(&lock, stream, out))
}

// The bytes of a package from one place up to, not including, another, opened into out.
pub fn ropeshadow_stretch(
    info: &[u8],
    password: &[u16],
    scheme: u64,
    stream: &[u8],
    from: u64,
    to: u64,
    out: &mut [u8],
) -> u64
    ensures { outcome result out.new ≡ Capi.stretch_outcome (lock_of info.now password.now scheme) stream.now from to out.old }
{
    let lock = Lock {
        info,
        password,
        scheme,
    };
    sized(stretch::open(&lock, stream, from, to, out))
}

// What is there of a package stream that is cut or overlong, opened into out, with its counts: recovered, zeroed, surplus.
pub fn ropeshadow_rescue(
    info: &[u8],
    password: &[u16],
    scheme: u64,
    stream: &[u8],
    out: &mut [u8],
    counts: &mut [u64; 3],
) -> u64
    ensures { Capi.beside (outcome result out.new) counts.new ≡ Capi.rescue_outcome (lock_of info.now password.now scheme) stream.now out.old counts.old }
{
    let lock = Lock {
        info,
        password,
        scheme,
    };
    match rescue::open(&lock, stream, out) {
        Ok(rescued) => {
            let c = rescued.counts;
            *counts = [c.recovered as u64, c.zeroed as u64, c.surplus as u64];
            crossing::word(0, rescued.size)
        }
        Err(refusal) => crossing::word(refusal.into(), 0),
    }
}

// A package sealed into out, its last block filled with the first of sixteen bytes; `extra` other than 0 asks for an extra block.
pub fn ropeshadow_seal(
    info: &[u8],
    password: &[u16],
    scheme: u64,
    package: &[u8],
    low: u64,
    high: u64,
    extra: u64,
    out: &mut [u8],
) -> u64
    ensures { outcome result out.new ≡ Capi.seal_outcome (lock_of info.now password.now scheme) «package».now low high extra out.old }
{
    let lock = Lock {
        info,
        password,
        scheme,
    };
    let filling = crossing::sixteen(low, high);
    sized(sheet::seal(&lock, package, filling, extra != 0, out))
}

// A new EncryptionInfo written into out, for a key of so many bits. Of the filling the first twelve bytes count.
pub fn ropeshadow_write_info(
    bits: u64,
    password: &[u16],
    name: &[u8],
    salt_low: u64,
    salt_high: u64,
    verifier_low: u64,
    verifier_high: u64,
    filling_low: u64,
    filling_high: u64,
    out: &mut [u8],
) -> u64
    ensures { outcome result out.new ≡ Capi.write_outcome bits password.now name.now salt_low salt_high verifier_low verifier_high filling_low filling_high out.old }
{
    let salt = crossing::sixteen(salt_low, salt_high);
    let verifier = crossing::sixteen(verifier_low, verifier_high);
    let filling = crossing::twelve(filling_low, filling_high);
    let bits = crossing::bit_count(bits);
    sized(writer::write_info(bits, password, name, salt, verifier, filling, out))
}
