// Prints the model text of the system file on standard input, under the rule by which a variable keeps its value on a clash.
#![tactic(auto)]

mod page;

use page::page_of;
use std::io;
use std::io::{Read, Write};

// The first 65,536 bytes of the input, which are taken for the whole file.
fn input_file(rt: &HostRuntime) -> io::Result<Vec<u8>> {
    let mut file = Vec::new(rt.alloc());
    rt.stdin().take(65536).read_to_end(&mut file)?;
    Ok(file)
}

fn main(rt: HostRuntime) -> io::Result<()> {
    let file = input_file(&rt)?;
    let page = page_of(rt.alloc(), file.as_slice())?;
    rt.stdout().write_all(page.as_slice())
}
