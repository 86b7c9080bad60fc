// What a program that has no arguments does where it is given one.
#![tactic(auto)]

ghost use Rattle.std.specs.Prelude.{◌≡◌, IfOk};
ghost use Rattle.std.specs.Option.{option_map};
ghost use Rattle.usage.specs.Requests.{requested, told_by};

use anyhow::anyhow;
use std::io::IsTerminal;

#[derive(Clone, Copy, PartialEq, Eq, Debug)]
pub enum Request {
    Run,
    Help,
    NotUnderstood,
}

impl Request {
    // What the first argument asks for.
    pub fn of(argument: Option<&str>) -> Request
        ensures { result ≡ requested (option_map (λ a. a.now) argument.entry) }
    {
        match argument {
            None => Request::Run,
            Some("--help") => Request::Help,
            Some(_) => Request::NotUnderstood,
        }
    }
}

// Whether the program is to run, by its first argument. Any argument gets the usage, and only one that asks for it is no error;
// at a terminal the usage comes first, too. What is printed no clause can name.
pub fn asks_to_run(rt: &HostRuntime, usage: &str, argument: Option<&str>) -> anyhow::Result<bool>
    ensures { IfOk result (λ runs. requested (option_map (λ a. a.now) argument.entry) ≡ told_by runs) }
{
    let request = Request::of(argument);
    if request != Request::Run || rt.stdin().is_terminal() {
        rt.eprintln(usage)?;
    }
    match request {
        Request::Run => Ok(true),
        Request::Help => Ok(false),
        Request::NotUnderstood => Err(anyhow!("there are no arguments")),
    }
}
