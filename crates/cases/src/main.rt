// The cases of 01 that are run and not proved: a line each, which the gate compares with the file stdout. Each reply from 1 to 16, and
// 19 and 20, is given once where a later rule is broken too, so that the order shows; a refused call shows its buffer as it was.

#![tactic(auto)]

mod chained;
mod extra;
mod info;
mod rescues;
mod sheets;
mod stretches;
mod writes;

use std::io;

fn main(rt: HostRuntime) -> io::Result<()> {
    info::parses(&rt)?;
    info::verdicts(&rt)?;
    sheets::round_trips(&rt)?;
    sheets::refusals(&rt)?;
    extra::chosen(&rt)?;
    extra::lengthened(&rt)?;
    sheets::published(&rt)?;
    writes::written(&rt)?;
    writes::unwritten(&rt)?;
    chained::round_trips(&rt)?;
    chained::swaps(&rt)?;
    chained::refusals(&rt)?;
    chained::unnumbered(&rt)?;
    stretches::tables(&rt)?;
    stretches::refusals(&rt)?;
    rescues::all(&rt)
}
