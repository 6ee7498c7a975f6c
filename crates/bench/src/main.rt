// The bench program: reads one block from standard input and lists the plan that the box answers with, or its refusal.
// No command that the box accepts has more than 7,515 bytes, so an input that is cut at 8,192 is never placed.
#![tactic(auto)]

ghost use Rattle.std.specs.Prelude.{◌≤◌, ◌<◌, length};

use std::io::{self, Read};
use work::NUMBERS;

// An answer's payload: S; R before four zero bits; the counts, rank 1 first; then the places, of 12 bits each.
#[derive(Clone, Copy)]
struct Answer<'a>(&'a [u8]);

impl Answer<'_> {
    // Not by `fields::read`, whose contract gives the field and not how large it can be.
    fn byte(&self, i: usize) -> u32
        ensures { result ≤ 255 }
    {
        self.0.get(i).map_or(0, |&b| u32::from(b))
    }

    fn signals(&self) -> u32
        ensures { result ≤ 255 }
    {
        self.byte(0)
    }

    fn ranks(&self) -> u32
        ensures { result ≤ 15 }
    {
        self.byte(1) / 16
    }

    fn counts(&self) -> &[u8]
        ensures { length result.now < 16 }
    {
        let ranks = self.ranks() as usize;
        self.0.get(2..2 + ranks).unwrap_or_default()
    }

    // A signal's channel and rank, if it has a place. Before the place stand the head, the counts and the places of earlier
    // signals; channel 255 is none.
    fn place(&self, signal: u32) -> Option<(u32, u32)>
        requires { signal ≤ 255 }
    {
        let at = (16 + 8 * self.ranks() + 12 * signal) as usize;
        match fields::read(self.0, at, 8) {
            255 => None,
            channel => Some((channel, fields::read(self.0, at + 8, 4))),
        }
    }
}

fn total(counts: &[u8]) -> u32
    requires { length counts.now < 16 }
{
    counts.iter().map(|&count| u32::from(count)).sum()
}

fn list(rt: &impl Print, answer: Answer<'_>) -> io::Result<()> {
    println!(rt; "placed {}", total(answer.counts()))?;
    for (rank, count) in (1u32..).zip(answer.counts()) {
        println!(rt; "rank {rank} {count}")?;
    }
    for signal in 0..answer.signals() {
        match answer.place(signal) {
            Some((channel, rank)) => println!(rt; "signal {signal} channel {channel} rank {rank}")?,
            None => println!(rt; "signal {signal} none")?,
        }
    }
    Ok(())
}

// Handles the input and lists what came of it. The longest answer's block has 322 bytes.
fn run(rt: &impl Print, input: &[u8]) -> io::Result<()> {
    let mut area = [0u8; 322];
    let mut work = [0u16; NUMBERS];
    match command::handle(input, &mut area, &mut work) {
        Ok(length) => {
            let block = area.get(..length.0).unwrap_or(&area);
            list(rt, Answer(opening::payload(block)))
        }
        Err(refusal) => println!(rt; "{refusal}"),
    }
}

fn main(rt: HostRuntime) -> io::Result<()> {
    let mut input = Vec::new(rt.alloc());
    rt.reader().take(8192).read_to_end(&mut input)?;
    run(&rt, input.as_slice())
}
