// Opens the locked sheet in the folder that it is started in: crates/program says how.

#![tactic(auto)]

use std::io;

fn main(rt: HostRuntime) -> io::Result<()> {
    program::run(&rt)
}
