//! Serves words on a new register: counter < WORDS
#![tactic(auto)]

use service::counter::count;
use std::io::{BufWriter, Write};

fn main(rt: HostRuntime) -> anyhow::Result<()> {
    let heap = rt.alloc();
    let mut out = BufWriter::new(heap, rt.stdout())?;
    count(heap, &mut rt.stdin(), &mut out)?;
    out.flush()?;
    Ok(())
}
