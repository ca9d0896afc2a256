// A file read whole, or as much of it as tells that it is too long.
ghost use Rattle.std.specs.Prelude.{◌≤◌, length, IfOk};

use std::fs::File;
use std::io;
use std::io::{ErrorKind, Read};
use std::rt::Files;

// One byte more than a file may have.
pub const ROOM: usize = 65537;

// One read, begun again where a signal broke it off. The count of turns is one that no run uses up: a loop has to end.
fn read_some(file: &mut impl Read, room: &mut [u8]) -> io::Result<usize>
    ensures { IfOk result (λ n. n ≤ length room.old) }
{
    for _ in 0..u64::MAX {
        match file.read(room) {
            Err(e) if e.kind() == ErrorKind::Interrupted => {}
            got => return got,
        }
    }
    file.read(room)
}

// Reads until the room is full or nothing more comes, since a read may give fewer bytes than were asked for: the bytes that came, and
// whether reading went well. A folder can be opened, and only reading it fails.
pub fn read_all<'a>(file: &mut impl Read, room: &'a mut [u8]) -> (&'a [u8], io::Result<()>)
    ensures { length result.0.now ≤ length room.old }
{
    let mut size = 0;
    // kept: a while: a read says how far it came, so no range counts the turns
    while size < room.len() {
        match read_some(file, &mut room[size..]) {
            Ok(0) => return (&room[..size], Ok(())),
            Ok(more) => size += more,
            Err(why) => return (&room[..size], Err(why)),
        }
    }
    (room, Ok(()))
}

// The file of that name in the folder that the program was started in, where all of it could be read.
pub fn read_file<'a>(rt: &impl Files, name: &str, room: &'a mut [u8]) -> io::Result<&'a [u8]>
    ensures { IfOk result (λ s. length s.now ≤ length room.old) }
{
    let mut file = File::open(rt, name)?;
    let (bytes, ended) = read_all(&mut file, room);
    ended?;
    Ok(bytes)
}
