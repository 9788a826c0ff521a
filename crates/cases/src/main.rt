// Cases of the two lowest layers, run and compared with what they should answer: polygons that are no
// envelope, points at an edge, and records that are damaged.
#![tactic(auto)]

mod polygons;
mod records_read;
mod refusal;

use std::io;

fn main(rt: HostRuntime) -> io::Result<()> {
    polygons::run(&rt)?;
    records_read::run(&rt)
}
