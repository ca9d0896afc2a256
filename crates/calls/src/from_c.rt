// One call of each C function: the reply is the one that its number tells (Crossing.antt `told`).
ghost use Rattle.answers.specs.Ended.{left};
ghost use Rattle.aes.specs.Aes.{encryption, decryption};
ghost use Rattle.password.specs.Lock.{lock_of};
ghost use Rattle.rescue.specs.Rescue.{rescue};
ghost use Rattle.crossing.specs.Crossing.{told, sixteen, twelve, bit_count, chosen};
ghost use Rattle.capi.specs.Capi.{counts_in};
ghost use Rattle.promises.specs.Calls as Calls;

// kept: each parameter by itself, and a number as the result: the C interface
// SHA-1 of a message.
pub fn sha1(message: &[u8], out: &mut [u8; 20]) -> u64
    ensures { Calls.HashOut message.now out.old (left (told result) out.new) }
{
    capi::ropeshadow_sha1(message, out)
}

// A block encrypted.
pub fn aes_encrypt(key: &[u8], low: u64, high: u64, out: &mut [u8; 16]) -> u64
    ensures { Calls.BlockOut encryption key.now (sixteen low high) out.old (left (told result) out.new) }
{
    capi::ropeshadow_aes_encrypt(key, low, high, out)
}

// A block decrypted.
pub fn aes_decrypt(key: &[u8], low: u64, high: u64, out: &mut [u8; 16]) -> u64
    ensures { Calls.BlockOut decryption key.now (sixteen low high) out.old (left (told result) out.new) }
{
    capi::ropeshadow_aes_decrypt(key, low, high, out)
}

// EncryptionInfo parsed.
pub fn parse(info: &[u8], scheme: u64, out: &mut [u8; 88]) -> u64
    ensures { Calls.DescriptorOut info.now scheme out.old (left (told result) out.new) }
{
    capi::ropeshadow_parse(info, scheme, out)
}

// A password judged.
pub fn verdict(info: &[u8], password: &[u16], scheme: u64) -> u64
    ensures { Calls.VerdictOut (lock_of info.now password.now scheme) (told result) }
{
    capi::ropeshadow_verdict(info, password, scheme)
}

// A stream opened.
pub fn open(info: &[u8], password: &[u16], scheme: u64, stream: &[u8], out: &mut [u8]) -> u64
    ensures { Calls.Opening (lock_of info.now password.now scheme) stream.now out.old (left (told result) out.new) }
{
    capi::ropeshadow_open(info, password, scheme, stream, out)
}

// A stretch of a stream's package opened.
pub fn stretch(
    info: &[u8],
    password: &[u16],
    scheme: u64,
    stream: &[u8],
    from: u64,
    to: u64,
    out: &mut [u8],
) -> u64
    ensures { Calls.Stretching (lock_of info.now password.now scheme) stream.now from to out.old (left (told result) out.new) }
{
    capi::ropeshadow_stretch(info, password, scheme, stream, from, to, out)
}

// What is there of a stream opened, with its counts in three numbers.
pub fn rescue(
    info: &[u8],
    password: &[u16],
    scheme: u64,
    stream: &[u8],
    out: &mut [u8],
    counts: &mut [u64; 3],
) -> u64
    ensures { Calls.Rescuing (lock_of info.now password.now scheme) stream.now out.old (counts_in counts.old) (rescue (left (told result) out.new) (counts_in counts.new)) }
{
    capi::ropeshadow_rescue(info, password, scheme, stream, out, counts)
}

// A package sealed.
pub fn seal(
    info: &[u8],
    password: &[u16],
    scheme: u64,
    package: &[u8],
    low: u64,
    high: u64,
    extra: u64,
    out: &mut [u8],
) -> u64
    ensures { Calls.Sealing (lock_of info.now password.now scheme) «package».now (sixteen low high) (chosen extra) out.old (left (told result) out.new) }
{
    capi::ropeshadow_seal(info, password, scheme, package, low, high, extra, out)
}

// A new EncryptionInfo written.
pub fn write_info(
    bits: u64,
    password: &[u16],
    name: &[u8],
    salt_low: u64,
    salt_high: u64,
    verifier_low: u64,
    verifier_high: u64,
    filling_low: u64,
    filling_high: u64,
    out: &mut [u8],
) -> u64
    ensures { Calls.Writing (Calls.input (bit_count bits).0 password.now name.now (sixteen salt_low salt_high) (sixteen verifier_low verifier_high) (twelve filling_low filling_high)) out.old (left (told result) out.new) }
{
    capi::ropeshadow_write_info(
        bits,
        password,
        name,
        salt_low,
        salt_high,
        verifier_low,
        verifier_high,
        filling_low,
        filling_high,
        out,
    )
}
