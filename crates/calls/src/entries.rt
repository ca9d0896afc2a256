// One call of each entry.
ghost use Rattle.answers.specs.Ended.{left};
ghost use Rattle.answers.specs.Refusals.{answer_of, reply_of};
ghost use Rattle.sha1_digest.specs.Sha1.{hashed_of};
ghost use Rattle.aes.specs.Aes as Aes;
ghost use Rattle.aes.specs.Aes.{encryption, decryption};
ghost use Rattle.descriptor.specs.Info.{parsed_of};
ghost use Rattle.password.specs.Lock.{asked};
ghost use Rattle.rescue.specs.Rescue.{none, rescued_of};
ghost use Rattle.files.specs.Files.{found};
ghost use Rattle.promises.specs.Calls as Calls;

use answers::Refusal;
use descriptor::{BitCount, Descriptor};
use password::Lock;
use rescue::Rescued;

// SHA-1 of a message.
pub fn digest(message: &[u8]) -> Result<[u8; 20], Refusal>
    ensures { Calls.Hashing message.now (hashed_of result) }
{
    sha1_digest::digest(message)
}

// A block encrypted.
pub fn encrypt(key: &[u8], block: [u8; 16]) -> Result<[u8; 16], Refusal>
    ensures { Calls.Enciphering encryption key.now block (Aes.block_reply result) }
{
    aes::encrypt(key, block)
}

// A block decrypted.
pub fn decrypt(key: &[u8], block: [u8; 16]) -> Result<[u8; 16], Refusal>
    ensures { Calls.Enciphering decryption key.now block (Aes.block_reply result) }
{
    aes::decrypt(key, block)
}

// EncryptionInfo parsed.
pub fn parse(info: &[u8], scheme: u64) -> Result<Descriptor, Refusal>
    ensures { Calls.Parsing info.now scheme (parsed_of result) }
{
    descriptor::parse(info, scheme)
}

// A password judged.
pub fn verdict(lock: &Lock) -> Result<(), Refusal>
    ensures { Calls.Judging (asked lock.now) (answer_of result) }
{
    lock.verdict()
}

// A stream opened.
pub fn open(lock: &Lock, stream: &[u8], out: &mut [u8]) -> Result<usize, Refusal>
    ensures { Calls.Opening (asked lock.now) stream.now out.old (left (reply_of result) out.new) }
{
    sheet::open(lock, stream, out)
}

// A stretch of a stream's package opened.
pub fn stretch(
    lock: &Lock,
    stream: &[u8],
    from: u64,
    to: u64,
    out: &mut [u8],
) -> Result<usize, Refusal>
    ensures { Calls.Stretching (asked lock.now) stream.now from to out.old (left (reply_of result) out.new) }
{
    stretch::open(lock, stream, from, to, out)
}

// What is there of a stream opened.
pub fn rescue(lock: &Lock, stream: &[u8], out: &mut [u8]) -> Result<Rescued, Refusal>
    ensures { Calls.Rescuing (asked lock.now) stream.now out.old none (rescued_of result out.new) }
{
    rescue::open(lock, stream, out)
}

// A package sealed.
pub fn seal(
    lock: &Lock,
    package: &[u8],
    filling: [u8; 16],
    extra: bool,
    out: &mut [u8],
) -> Result<usize, Refusal>
    ensures { Calls.Sealing (asked lock.now) «package».now filling extra out.old (left (reply_of result) out.new) }
{
    sheet::seal(lock, package, filling, extra, out)
}

// A new EncryptionInfo written.
pub fn write_info(
    bits: BitCount,
    password: &[u16],
    name: &[u8],
    salt: [u8; 16],
    verifier: [u8; 16],
    filling: [u8; 12],
    out: &mut [u8],
) -> Result<usize, Refusal>
    ensures { Calls.Writing (Calls.input bits.0 password.now name.now salt verifier filling) out.old (left (reply_of result) out.new) }
{
    writer::write_info(bits, password, name, salt, verifier, filling, out)
}

// The program's three files opened.
pub fn open_files(
    info: Option<&[u8]>,
    password: Option<&[u8]>,
    stream: Option<&[u8]>,
    out: &mut [u8],
) -> Result<usize, Refusal>
    ensures { Calls.FilesOpening (found info.entry) (found password.entry) (found stream.entry) out.old (left (reply_of result) out.new) }
{
    files::open(info, password, stream, out)
}
