// The program `unlock` but for its `main` (01, "The program reads the files .."): it reads info.bin, package.bin and password.bin in
// the folder that it is started in, opens them by `files`, writes sheet.bin on answer 0 and prints one line.
//
// What the answer is, and every byte of the sheet, is proved in `files`. What stands here only moves bytes between it and the system,
// and no contract can say which bytes were read, written or printed.

#![tactic(auto)]

mod input;
mod output;

ghost use Rattle.answers.specs.Refusals.{reply_of};
ghost use Rattle.program.specs.Run.{OpensFiles, Settled};

use answers::Refusal;
use std::fs::File;
use std::io;
use std::rt::Files;

// As many bytes as any of the files may have: no package is longer.
const SHEET_ROOM: usize = 65536;

// Reads the files and opens them into out.
fn open_files(rt: &impl Files, out: &mut [u8]) -> Result<usize, Refusal>
    ensures { OpensFiles (reply_of result) out.old out.new }
{
    let mut info = [0u8; input::ROOM];
    let mut password = [0u8; input::ROOM];
    let mut stream = [0u8; input::ROOM];
    let info = input::read_file(rt, "info.bin", &mut info);
    let password = input::read_file(rt, "password.bin", &mut password);
    let stream = input::read_file(rt, "package.bin", &mut stream);
    files::open(info.ok(), password.ok(), stream.ok(), out)
}

// Writes the sheet that was opened. One that cannot be written counts as a file that is missing, and standard error has the reason.
fn settled(
    rt: &(impl Files + Eprint + AllocGlobal),
    opened: Result<usize, Refusal>,
    sheet: &[u8],
) -> Result<usize, Refusal>
    ensures { Settled (reply_of opened) (reply_of result) }
{
    let size = opened?;
    if let Err(why) = output::write_sheet(rt, sheet) {
        output::fail(rt, why);
        return Err(Refusal::Files);
    }
    Ok(size)
}

// `answer N size S`.
fn print_line(rt: &impl Print, settled: Result<usize, Refusal>) -> io::Result<()> {
    println!(rt;
        "answer {} size {}",
        answers::number(settled),
        settled.unwrap_or(0)
    )
}

// One run.
pub fn run(rt: &(impl Files + Print + Eprint + AllocGlobal)) -> io::Result<()> {
    let mut out = [0u8; SHEET_ROOM];
    let opened = open_files(rt, &mut out);
    let sheet = &out[..opened.unwrap_or(0)];
    print_line(rt, settled(rt, opened, sheet))
}

// What sheet.bin holds, in hexadecimal, as far as it can be read: for programs that show that an older sheet is replaced, or left as it
// was.
pub fn show_sheet(rt: &(impl Files + Print)) -> io::Result<()> {
    let mut room = [0u8; input::ROOM];
    if let Ok(mut file) = File::open(rt, "sheet.bin") {
        let (sheet, _) = input::read_all(&mut file, &mut room);
        lines::hex(rt, sheet)?;
    }
    println!(rt)
}
