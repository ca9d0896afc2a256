// The published vectors, and inputs around the rules' edges, through the public entries: a line each, which the gate compares with
// the file stdout and with what tests/second prints of its own.

#![tactic(auto)]

mod ciphers;
mod hashes;
mod keys;
mod starts;

use std::io;

fn main(rt: HostRuntime) -> io::Result<()> {
    hashes::all(&rt)?;
    ciphers::all(&rt)?;
    keys::all(&rt)?;
    starts::all(&rt)
}
