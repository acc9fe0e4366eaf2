// Prints system files for a person: those that its arguments name, or the one on standard input.
#![tactic(auto)]

mod automata;
mod description;
mod refusal;
mod text;
mod transitions;

use description::Description;
use refusal::Refusal;
use std::io::Read;
use std::{env, fs, io};
use view::View;

// A file as text: what it holds, or why it is refused.
fn show(rt: &HostRuntime, file: &[u8]) -> io::Result<()> {
    match View::check(file) {
        Ok(view) => rt.print(Description(view)),
        Err(fault) => rt.print(Refusal { file, fault }),
    }
}

fn show_input(rt: &HostRuntime) -> io::Result<()> {
    let mut file = Vec::new(rt.alloc());
    rt.stdin().read_to_end(&mut file)?;
    show(rt, file.as_slice())
}

fn show_file(rt: &HostRuntime, path: &str) -> io::Result<()> {
    let file = fs::read(rt, path)?;
    show(rt, file.as_slice())
}

// The files at `paths`, each under its path where there are several. One that cannot be read does not stop the others.
fn show_files(rt: &HostRuntime, paths: &[String]) -> io::Result<()> {
    let mut all = Ok(());
    for path in paths {
        if paths.len() > 1 {
            println!(rt; "{path}:")?;
        }
        if let Err(e) = show_file(rt, path.as_str()) {
            eprintln!(rt; "{path}: {e}")?;
            all = Err(e);
        }
    }
    all
}

fn main(rt: HostRuntime) -> io::Result<()> {
    let paths = env::args(&rt)?.skip(1).collect::<Vec<String>>(rt.alloc())?;
    if paths.is_empty() {
        show_input(&rt)
    } else {
        show_files(&rt, paths.as_slice())
    }
}
