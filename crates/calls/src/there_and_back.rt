// Two calls one after the other: what one of them makes of what the other left.
ghost use Rattle.answers.specs.Ended.{left};
ghost use Rattle.answers.specs.Refusals.{answer_of, reply_of};
ghost use Rattle.descriptor.specs.Info.{parsed_of};
ghost use Rattle.password.specs.Lock.{asked};
ghost use Rattle.promises.specs.Calls as Calls;

use answers::Refusal;
use descriptor::{BitCount, Descriptor};
use password::Lock;

// A package sealed into `stream`, and opened from there into `out`.
pub fn sealed_and_opened(
    lock: &Lock,
    package: &[u8],
    filling: [u8; 16],
    extra: bool,
    stream: &mut [u8],
    out: &mut [u8],
) -> Result<usize, Refusal>
    ensures { Calls.Returned (asked lock.now) «package».now extra stream.old out.old (left (reply_of result) out.new) }
{
    let n = sheet::seal(lock, package, filling, extra, stream)?;
    sheet::open(lock, &stream[..n], out)
}

// A stream opened into `out`, and its package sealed anew from there into `again`.
pub fn opened_and_sealed(
    lock: &Lock,
    stream: &[u8],
    filling: [u8; 16],
    extra: bool,
    out: &mut [u8],
    again: &mut [u8],
) -> Result<usize, Refusal>
    ensures { Calls.Resealed (asked lock.now) stream.now filling extra out.old out.new again.old (left (reply_of result) again.new) }
{
    let n = sheet::open(lock, stream, out)?;
    sheet::seal(lock, &out[..n], filling, extra, again)
}

// What came of a new EncryptionInfo: how many bytes were written, the parse of them, and the verdict on its password.
#[derive(Clone, Copy)]
pub struct Read {
    pub written: Result<usize, Refusal>,
    pub parsed: Result<Descriptor, Refusal>,
    pub verdict: Result<(), Refusal>,
}

// A new EncryptionInfo written into `out`, parsed from there, and judged with its password, both under a scheme.
pub fn written_and_read(
    bits: BitCount,
    password: &[u16],
    name: &[u8],
    salt: [u8; 16],
    verifier: [u8; 16],
    filling: [u8; 12],
    scheme: u64,
    out: &mut [u8],
) -> Read
    ensures { Calls.Reading (Calls.input bits.0 password.now name.now salt verifier filling) scheme out.old (left (reply_of result.written) out.new) (parsed_of result.parsed) (answer_of result.verdict) }
{
    let written = writer::write_info(bits, password, name, salt, verifier, filling, out);
    let info = &out[..written.unwrap_or(0)];
    let lock = Lock {
        info,
        password,
        scheme,
    };
    Read {
        written,
        parsed: descriptor::parse(info, scheme),
        verdict: lock.verdict(),
    }
}
