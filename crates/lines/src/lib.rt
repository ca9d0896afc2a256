// What the programs print with beside `print!`: bytes in hexadecimal, on standard output. No contract can say
// what is printed; the gate compares it with each program's file stdout.

#![tactic(auto)]

use std::fmt::{self, Display, Formatter, Write};
use std::io;

// Bytes that show in hexadecimal: all of them are one text, since each text that is printed costs a write.
#[derive(Clone, Copy)]
struct Digits<'a> {
    bytes: &'a [u8],
}

impl Display for Digits<'_> {
    fn fmt<W: Write>(&self, f: &mut Formatter<W>) -> fmt::Result {
        for byte in self.bytes {
            write!(f, "{byte:02x}")?;
        }
        Ok(())
    }
}

// Bytes in hexadecimal.
pub fn hex(rt: &impl Print, s: &[u8]) -> io::Result<()> {
    print!(rt; "{}", Digits { bytes: s })
}
