// The sheet, written whole or not at all: under another name beside sheet.bin, which then takes its place in one step. So an older,
// longer sheet leaves no tail, and a write that fails leaves an older sheet as it was.
ghost use Rattle.std.specs.Prelude.{◌≡◌, length, IfOk};

use std::fs::{OpenFile, OpenOptions};
use std::io::{ErrorKind, Write};
use std::rt::Files;
use std::{fs, io};

// Says on standard error why, in the system's words alone: std puts their number after them. Where there is no memory to cut it off, it
// stays, and where nothing can be said, the program's answer still stands.
pub fn fail(rt: &(impl Eprint + AllocGlobal), why: io::Error) {
    let _ = match format!(in rt.alloc(); "{why}") {
        Ok(text) => match text.split_once(" (os error ") {
            Some((reason, _)) => eprintln!(rt; "sheet.bin: {reason}"),
            None => eprintln!(rt; "sheet.bin: {text}"),
        },
        Err(_) => eprintln!(rt; "sheet.bin: {why}"),
    };
}

// The other name with that digit, or with 9.
fn beside(digit: u8) -> &'static str
    ensures { 11 ≡ length result.now }
{
    match digit {
        0 => "sheet.bin.0",
        1 => "sheet.bin.1",
        2 => "sheet.bin.2",
        3 => "sheet.bin.3",
        4 => "sheet.bin.4",
        5 => "sheet.bin.5",
        6 => "sheet.bin.6",
        7 => "sheet.bin.7",
        8 => "sheet.bin.8",
        _ => "sheet.bin.9",
    }
}

// A file that nobody had before, with the mode of any new file.
fn make<R: Files>(rt: &R, name: &str) -> io::Result<R::File> {
    OpenOptions::new()
        .write(true)
        .create_new(true)
        .open(rt, name)
}

// Makes one under the first of the names that is free, and answers both: one is taken where a run was killed. Where each is, the last
// says so.
fn make_beside<R: Files>(rt: &R) -> io::Result<(&'static str, R::File)>
    ensures { IfOk result (λ made. 11 ≡ length made.0.now) }
{
    for digit in 0..9 {
        let name = beside(digit);
        match make(rt, name) {
            Err(why) if why.kind() == ErrorKind::AlreadyExists => {}
            made => return Ok((name, made?)),
        }
    }
    let name = beside(9);
    Ok((name, make(rt, name)?))
}

// Writes all the bytes, as far as the device. The file is closed as it is let go, which tells nothing.
fn fill(mut file: impl Write + OpenFile + Drop, bytes: &[u8]) -> io::Result<()> {
    file.write_all(bytes)?;
    file.sync_all()
}

// Writes sheet.bin; or answers why it could not, with nothing left behind.
pub fn write_sheet(rt: &impl Files, bytes: &[u8]) -> io::Result<()> {
    let (name, file) = make_beside(rt)?;
    let written = fill(file, bytes).and_then(|()| fs::rename(rt, name, "sheet.bin"));
    if written.is_err() {
        let _ = fs::remove_file(rt, name);
    }
    written
}
