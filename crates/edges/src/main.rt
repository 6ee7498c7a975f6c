// Runs document 01's edge cases and prints what was seen, a line for each. The cases are the lines of the file stdin beside
// src/, whose head says how they are written; the file stdout has what the document says must be seen.
#![tactic(auto)]

mod digits;
mod reading;
mod say;
mod trying;
mod words;

use digits::Digits;
use reading::Case;
use std::io::{self, Read};

// Line n: a case, or a remark. What is neither is said.
fn line(rt: &impl Print, text: &[u8], n: usize) -> io::Result<()> {
    if text.starts_with(b"#") {
        return Ok(());
    }
    let mut digits = Digits::new();
    match Case::read(text, &mut digits) {
        Ok(case) => trying::run(rt, &case),
        Err(fault) => println!(rt; "line {n}: {fault}"),
    }
}

fn lines(rt: &impl Print, input: &[u8]) -> io::Result<()> {
    for (n, text) in (1..).zip(input.split_inclusive(|&b| b == b'\n')) {
        line(rt, text.strip_suffix(b"\n").unwrap_or(text), n)?;
    }
    Ok(())
}

fn main(rt: HostRuntime) -> io::Result<()> {
    let mut input = Vec::new(rt.alloc());
    rt.reader().take(65536).read_to_end(&mut input)?;
    lines(&rt, input.as_slice())?;
    if input.len() == 65536 {
        println!(&rt; "more than 65,535 bytes of cases")?;
    }
    Ok(())
}
