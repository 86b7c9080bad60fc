// Reads hash records from standard input, and prints the line of each.
#![tactic(auto)]

use listing::listing;
use std::env;
use std::io::Read;

const USAGE: &str =
    "Usage: sheethash < FILE. Reads hash records from standard input, and prints a line for each.";

// What is read of an input at most; a record that goes beyond it is cut short.
const MOST_INPUT: u64 = 65_536;

fn run(rt: &HostRuntime) -> anyhow::Result<()> {
    let mut input = Vec::new(rt.alloc());
    rt.stdin().take(MOST_INPUT).read_to_end(&mut input)?;
    let text = listing(rt.alloc(), input.as_slice())?;
    rt.print(text.as_str())?;
    Ok(())
}

fn main(rt: HostRuntime) -> anyhow::Result<()> {
    let argument = env::args(&rt)?.nth(1);
    if usage::asks_to_run(&rt, USAGE, argument.as_deref())? {
        run(&rt)?;
    }
    Ok(())
}
