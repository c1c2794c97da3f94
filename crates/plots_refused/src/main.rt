//! Tells where each grave of a sparse store image lies: plots < IMAGE
#![tactic(auto)]

use std::io::{BufWriter, Write};
use std::process::ExitCode;
use survey::printing::run;

fn main(rt: HostRuntime) -> anyhow::Result<ExitCode> {
    let heap = rt.alloc();
    let mut out = BufWriter::new(heap, rt.stdout())?;
    let good = run(heap, &mut rt.stdin(), &mut out, &mut rt.stderr())?;
    out.flush()?;
    Ok(if good {
        ExitCode::SUCCESS
    } else {
        ExitCode::FAILURE
    })
}
