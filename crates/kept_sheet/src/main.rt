// `unlock` where an older sheet.bin stands and the password does not match: a refusal leaves it as it is.

#![tactic(auto)]

use std::io;

fn main(rt: HostRuntime) -> io::Result<()> {
    program::run(&rt)?;
    program::show_sheet(&rt)
}
