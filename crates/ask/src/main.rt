// Answers questions about system files: one question a line on standard input, one answer a line on standard output.
#![tactic(auto)]

mod answer;
mod questions;
mod words;

use questions::answer_to;
use std::io;
use std::io::{BufRead, BufReader};

fn main(rt: HostRuntime) -> io::Result<()> {
    let heap = rt.alloc();
    for line in BufReader::new(heap, rt.stdin())?.split(heap, b'\n') {
        let answer = answer_to(heap, line?.as_slice())?;
        println!(rt; "{answer}")?;
    }
    Ok(())
}
