// Opens and seals the package of a locked document (01, "The package stream"; 004 2.3.4.4), given EncryptionInfo, the password and the
// scheme, which the document does not name.
//
//     let lock = Lock { info, password, scheme: descriptor::ECB };
//     let size = sheet::open(&lock, stream, &mut out)?;
//     .. the first size bytes of out ..
//
// Each call says in full what it leaves: on `Ok` the content and then zeros to the end of the output, whatever it held; on a refusal the
// output as it was. The tests go in 01's order, and the key is derived once a call.
//
// Warning: AES in ECB mode lets equal blocks be seen to be equal. Nothing here tells whether a stream was changed, nor whether it was
// sealed under the other scheme: it opens to as many wrong bytes.

#![tactic(auto)]

ghost use Rattle.std.specs.Prelude.{◌≡◌};
ghost use Rattle.answers.specs.Ended.{left};
ghost use Rattle.answers.specs.Refusals.{answer_of, reply_of};
ghost use Rattle.answers.specs.Rules.{first_of};
ghost use Rattle.password.specs.Lock.{asked};
ghost use Rattle.sheet.specs.Scheme.{mode_of};
ghost use Rattle.sheet.specs.Sheet.{stream_rules, package_rules, opened, sealed};

use answers::Refusal;
use blocks::Mode;
use descriptor::Descriptor;
use password::{Lock, Unlocked};

// The rules on a stream's lengths and on the room for its package, in order.
fn stream_answer(stream: &[u8], room: usize) -> Result<(), Refusal>
    ensures { answer_of result ≡ first_of (stream_rules stream.now room) }
{
    let size = lengths::stream_size(stream);
    lengths::stream_answer(stream.len(), size)?;
    answers::room_answer(room, size)
}

// The rules on a package's size and on the room for its stream, in order. A size above the limit is not rounded.
fn package_answer(extra: bool, size: usize, room: usize) -> Result<(), Refusal>
    ensures { answer_of result ≡ first_of (package_rules extra size room) }
{
    lengths::package_answer(size)?;
    answers::room_answer(room, 8 + lengths::rounded(extra, size))
}

// How the blocks of a package of so many bytes go together under a descriptor.
#[tactic(auto, unfolding(crate::specs::Scheme::mode_of))]
pub fn mode_of(fields: Descriptor, size: usize) -> Mode
    ensures { result ≡ mode_of fields size }
{
    if fields.scheme == descriptor::CHAINED {
        let salt = fields.salt;
        return Mode::Chained { salt, size };
    }
    Mode::Ecb
}

// Opens a package stream into out: as many bytes as StreamSize says, whatever its filling holds.
pub fn open(lock: &Lock, stream: &[u8], out: &mut [u8]) -> Result<usize, Refusal>
    ensures { left (reply_of result) out.new ≡ opened (asked lock.now) stream.now out.old }
{
    let Unlocked { fields, key } = lock.unlock()?;
    stream_answer(stream, out.len())?;
    let size = lengths::stream_size(stream);
    let mode = mode_of(fields, size);
    blocks::decrypt(key, mode, blocks::start(), &stream[8..], size, out);
    Ok(answers::done(size, out))
}

// Seals a package into out under an existing descriptor, its last block filled with the first of the filling bytes. Where the size takes
// an extra block and `extra` asks for it, that block is all sixteen of them; for other sizes the choice counts for nothing.
pub fn seal(
    lock: &Lock,
    package: &[u8],
    filling: [u8; 16],
    extra: bool,
    out: &mut [u8],
) -> Result<usize, Refusal>
    ensures { left (reply_of result) out.new ≡ sealed (asked lock.now) «package».now filling extra out.old }
{
    let Unlocked { fields, key } = lock.unlock()?;
    let n = package.len();
    package_answer(extra, n, out.len())?;
    let whole = lengths::rounded(extra, n);
    let mode = mode_of(fields, n);
    octets::put_le64(out, 0, n as u64);
    blocks::encrypt(key, mode, blocks::start(), package, filling, whole, out, 8);
    Ok(answers::done(8 + whole, out))
}
