// Opens the program's three files, given as bytes (01, no. 17 and "The program reads the files .."): rule 17 before every other, the
// password file as units, then what `sheet` opens. Reading, writing and printing stand above it, in `program`: nothing here calls out.
//
//     let size = files::open(Some(info), Some(password), Some(stream), &mut out)?;
//     .. the first size bytes of out ..
//
// A file that could not be read is None.

#![tactic(auto)]

ghost use Rattle.std.specs.Prelude.{◌≡◌, true, ◌*◌, ◌/◌, ◌≤◌, length, take};
ghost use Rattle.answers.specs.Ended.{left};
ghost use Rattle.answers.specs.Refusals.{answer_of, reply_of};
ghost use Rattle.answers.specs.Rules.{first_of};
ghost use Rattle.files.specs.Files as Files;
ghost use Rattle.files.specs.Files.{file, found};

use answers::{Refusal, rule};
use password::Lock;

// The most bytes of a file, and the most units of a password file within it.
const LIMIT: usize = 65536;

const UNITS: usize = 32768;

// Rule 17 on files that could be read, in order: none is too long, and the password file has an even length.
#[tactic(auto, unfolding(crate::specs::Files::file_rules, crate::specs::Files::missing, crate::specs::Files::long, crate::specs::Files::odd, crate::specs::Files::files_limit, answers::specs::Rules::first_of))]
fn answer(info: &[u8], password: &[u8], stream: &[u8]) -> Result<(), Refusal>
    ensures { answer_of result ≡ first_of (Files.file_rules (file true info.now) (file true password.now) (file true stream.now)) }
{
    rule(LIMIT < info.len(), Refusal::Files)?;
    rule(LIMIT < password.len(), Refusal::Files)?;
    rule(LIMIT < stream.len(), Refusal::Files)?;
    rule(!password.len().is_multiple_of(2), Refusal::Files)
}

// The units of the password file, laid at the front of d.
#[tactic(auto, using(crate::proofs::Units::unit_next, crate::proofs::Units::units_laid))]
fn put_units(password: &[u8], d: &mut [u16])
    requires { length password.now ≤ 2 * length d.old }
    ensures { take (length password.now / 2) d.new ≡ Files.units password.now }
{
    for i in 0..password.len() / 2 {
        d[i] = octets::le16(password, 2 * i);
    }
}

// Opens the files into out.
pub fn open(
    info: Option<&[u8]>,
    password: Option<&[u8]>,
    stream: Option<&[u8]>,
    out: &mut [u8],
) -> Result<usize, Refusal>
    ensures { left (reply_of result) out.new ≡ Files.files_opened (found info.entry) (found password.entry) (found stream.entry) out.old }
{
    let info = info.ok_or(Refusal::Files)?;
    let password = password.ok_or(Refusal::Files)?;
    let stream = stream.ok_or(Refusal::Files)?;
    answer(info, password, stream)?;
    let mut units = [0u16; UNITS];
    put_units(password, &mut units);
    let n = password.len() / 2;
    let lock = Lock {
        info,
        password: &units[..n],
        scheme: descriptor::ECB,
    };
    sheet::open(&lock, stream, out)
}
