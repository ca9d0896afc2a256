// `unlock` where an older, longer sheet.bin stands: on answer 0 it becomes exactly the package.

#![tactic(auto)]

use std::io;

fn main(rt: HostRuntime) -> io::Result<()> {
    program::run(&rt)?;
    program::show_sheet(&rt)
}
