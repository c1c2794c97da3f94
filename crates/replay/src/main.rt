//! Serves recorded inputs as the program `counter` does, and says which are answered as recorded: replay NAME..
//!
//! NAME.in has hexadecimal words, one on a line; what follows a `#` is a comment, and a line `# + bytes XX ..` adds bytes. NAME.out has the
//! lines that are to be printed. The status is 1 where one input is answered otherwise.
#![tactic(auto)]

use service::counter::count;
use std::alloc::Global;
use std::process::ExitCode;
use std::rt::Files;
use std::{env, fs};

// The bytes that a recorded input stands for.
fn input_bytes(alloc: Global, recorded: &str) -> anyhow::Result<Vec<u8>> {
    let mut bytes = Vec::new(alloc);
    for line in recorded.lines() {
        if let Some(added) = line.strip_prefix("# + bytes ") {
            for byte in added.split_whitespace() {
                bytes.push(u8::from_str_radix(byte, 16)?)?;
            }
        } else {
            let (words, _comment) = line.split_once('#').unwrap_or((line, ""));
            for word in words.split_whitespace() {
                bytes.extend_from_slice(&u32::from_str_radix(word, 16)?.to_le_bytes())?;
            }
        }
    }
    Ok(bytes)
}

// Whether an input is answered as recorded.
fn is_answered(rt: &(impl Files + AllocGlobal), name: &str) -> anyhow::Result<bool> {
    let heap = rt.alloc();
    let recorded = fs::read_to_string(rt, format!(in heap; "{name}.in")?.as_str())?;
    let wanted = fs::read(rt, format!(in heap; "{name}.out")?.as_str())?;
    let bytes = input_bytes(heap, &recorded)?;
    let mut output = Vec::new(heap);
    count(heap, &mut bytes.as_slice(), &mut output)?;
    Ok(output == wanted)
}

fn main(rt: HostRuntime) -> anyhow::Result<ExitCode> {
    let mut status = ExitCode::SUCCESS;
    for name in env::args(&rt)?.skip(1) {
        if is_answered(&rt, &name)? {
            println!(rt; "{name}")?;
        } else {
            println!(rt; "{name}: answered otherwise")?;
            status = ExitCode::FAILURE;
        }
    }
    Ok(status)
}
