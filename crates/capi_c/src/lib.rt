// The outside interface for C: each function of capi under its own name, with its clauses.
//
//     uint64_t word = ropeshadow_open(info, info_size, password, units, scheme, stream, stream_size, out, room);
//     if (word % 65536 == 0) { .. the first word / 65536 bytes of out .. }
//
// To C a lent slice is two parameters, where it starts and how many elements it has: `&[u8]` is `const uint8_t *, size_t`, `&[u16]` is
// `const uint16_t *, size_t`, `&mut [u8]` is `uint8_t *, size_t`. A `&mut [u8; 20]` is one, `uint8_t *`, to that many bytes; `u64` is
// `uint64_t`.
//
// Nothing checks what C passes: include/ropeshadow.h has what a caller owes.

#![tactic(auto)]

// kept: each parameter by itself, and a number as the result: the C interface
ghost use Rattle.std.specs.Prelude.{◌≡◌};
ghost use Rattle.password.specs.Lock.{lock_of};
ghost use Rattle.capi.specs.Capi as Capi;
ghost use Rattle.capi.specs.Capi.{outcome};

// SHA-1 of a message.
#[unsafe(no_mangle)]
pub extern "C" fn ropeshadow_sha1(message: &[u8], out: &mut [u8; 20]) -> u64
    ensures { outcome result out.new ≡ Capi.hash_outcome message.now out.old }
{
    capi::ropeshadow_sha1(message, out)
}

// A block encrypted under a key of 16, 24 or 32 bytes.
#[unsafe(no_mangle)]
pub extern "C" fn ropeshadow_aes_encrypt(key: &[u8], low: u64, high: u64, out: &mut [u8; 16]) -> u64
    ensures { outcome result out.new ≡ Capi.encrypt_outcome key.now low high out.old }
{
    capi::ropeshadow_aes_encrypt(key, low, high, out)
}

// A block decrypted under a key of 16, 24 or 32 bytes.
#[unsafe(no_mangle)]
pub extern "C" fn ropeshadow_aes_decrypt(key: &[u8], low: u64, high: u64, out: &mut [u8; 16]) -> u64
    ensures { outcome result out.new ≡ Capi.decrypt_outcome key.now low high out.old }
{
    capi::ropeshadow_aes_decrypt(key, low, high, out)
}

// The descriptor of EncryptionInfo, with the scheme.
#[unsafe(no_mangle)]
pub extern "C" fn ropeshadow_parse(info: &[u8], scheme: u64, out: &mut [u8; 88]) -> u64
    ensures { outcome result out.new ≡ Capi.parse_outcome info.now scheme out.old }
{
    capi::ropeshadow_parse(info, scheme, out)
}

// The verdict on a password.
#[unsafe(no_mangle)]
pub extern "C" fn ropeshadow_verdict(info: &[u8], password: &[u16], scheme: u64) -> u64
    ensures { result ≡ Capi.verdict_word (lock_of info.now password.now scheme) }
{
    capi::ropeshadow_verdict(info, password, scheme)
}

// A package stream opened into out.
#[unsafe(no_mangle)]
pub extern "C" fn ropeshadow_open(
    info: &[u8],
    password: &[u16],
    scheme: u64,
    stream: &[u8],
    out: &mut [u8],
) -> u64
    ensures { outcome result out.new ≡ Capi.open_outcome (lock_of info.now password.now scheme) stream.now out.old }
{
    capi::ropeshadow_open(info, password, scheme, stream, out)
}

// The bytes of a package from one place up to, not including, another, opened into out.
#[unsafe(no_mangle)]
pub extern "C" fn ropeshadow_stretch(
    info: &[u8],
    password: &[u16],
    scheme: u64,
    stream: &[u8],
    from: u64,
    to: u64,
    out: &mut [u8],
) -> u64
    ensures { outcome result out.new ≡ Capi.stretch_outcome (lock_of info.now password.now scheme) stream.now from to out.old }
{
    capi::ropeshadow_stretch(info, password, scheme, stream, from, to, out)
}

// What is there of a package stream that is cut or overlong, opened into out, with its counts: recovered, zeroed, surplus.
#[unsafe(no_mangle)]
pub extern "C" fn ropeshadow_rescue(
    info: &[u8],
    password: &[u16],
    scheme: u64,
    stream: &[u8],
    out: &mut [u8],
    counts: &mut [u64; 3],
) -> u64
    ensures { Capi.beside (outcome result out.new) counts.new ≡ Capi.rescue_outcome (lock_of info.now password.now scheme) stream.now out.old counts.old }
{
    capi::ropeshadow_rescue(info, password, scheme, stream, out, counts)
}

// A package sealed into out, its last block filled with the first of sixteen bytes; `extra` other than 0 asks for an extra block.
#[unsafe(no_mangle)]
pub extern "C" fn ropeshadow_seal(
    info: &[u8],
    password: &[u16],
    scheme: u64,
    package: &[u8],
    low: u64,
    high: u64,
    extra: u64,
    out: &mut [u8],
) -> u64
    ensures { outcome result out.new ≡ Capi.seal_outcome (lock_of info.now password.now scheme) «package».now low high extra out.old }
{
    capi::ropeshadow_seal(info, password, scheme, package, low, high, extra, out)
}

// A new EncryptionInfo written into out, for a key of so many bits. Of the filling the first twelve bytes count.
#[unsafe(no_mangle)]
pub extern "C" fn ropeshadow_write_info(
    bits: u64,
    password: &[u16],
    name: &[u8],
    salt_low: u64,
    salt_high: u64,
    verifier_low: u64,
    verifier_high: u64,
    filling_low: u64,
    filling_high: u64,
    out: &mut [u8],
) -> u64
    ensures { outcome result out.new ≡ Capi.write_outcome bits password.now name.now salt_low salt_high verifier_low verifier_high filling_low filling_high out.old }
{
    capi::ropeshadow_write_info(
        bits,
        password,
        name,
        salt_low,
        salt_high,
        verifier_low,
        verifier_high,
        filling_low,
        filling_high,
        out,
    )
}
