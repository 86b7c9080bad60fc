// Runs an office's day: a call for each line of standard input, and its answer for each line of standard output.
#![tactic(auto)]

use day::Day;
use std::env;

const USAGE: &str =
    "Usage: bookrun < FILE. Reads calls from standard input, one to a line, and prints their answers.";

fn follow(rt: &HostRuntime, day: &mut Day) -> anyhow::Result<()> {
    for line in rt.lines(rt.alloc()) {
        if let Some(answer) = day.answer(rt.alloc(), line?.as_str())? {
            println!(rt; "{answer}")?;
        }
    }
    Ok(())
}

fn run(rt: &HostRuntime) -> anyhow::Result<()> {
    let mut day = Day::new();
    let followed = follow(rt, &mut day);
    day.end();
    followed
}

fn main(rt: HostRuntime) -> anyhow::Result<()> {
    let argument = env::args(&rt)?.nth(1);
    if usage::asks_to_run(&rt, USAGE, argument.as_deref())? {
        run(&rt)?;
    }
    Ok(())
}
