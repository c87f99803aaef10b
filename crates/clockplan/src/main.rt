// The command-line program. It reads and writes files and prints; what it says is worked out by the libraries.
#![tactic(auto)]

mod check;
mod commands;
mod files;
mod mistakes;
mod options;
mod pack;
mod planned;
mod problem;
mod refused;
mod report;
mod script;
mod show;
mod show_plan;
mod shown;
mod slack;

use commands::{Command, Outcome, USAGE, read_command};
use std::env;
use std::process::ExitCode;

fn main(rt: HostRuntime) -> anyhow::Result<ExitCode> {
    match run(&rt) {
        Ok(outcome) => Ok(outcome.into()),
        Err(error) => {
            eprintln!(rt; "clockplan: {error}")?;
            Ok(ExitCode::FAILURE)
        }
    }
}

// Performs the commands in the program's arguments, of which the first is the program's own path. They are separated by
// `then`, and the first that is refused ends them.
fn run(rt: &HostRuntime) -> anyhow::Result<Outcome> {
    let heap = rt.alloc();
    let arguments: Vec<String> = env::args(rt)?.skip(1).collect(heap)?;
    let words: Vec<&str> = arguments.iter().map(|word| word.as_str()).collect(heap)?;
    for command in words.split(|word| *word == "then") {
        if perform(rt, command)? == Outcome::Refused {
            return Ok(Outcome::Refused);
        }
    }
    Ok(Outcome::Granted)
}

// A command is data that the arguments are read as, and not a closure, so that all of them are read in one place.
fn perform(rt: &HostRuntime, words: &[&str]) -> anyhow::Result<Outcome> {
    let Some(command) = read_command(words) else {
        rt.eprint(USAGE)?;
        return Ok(Outcome::Refused);
    };
    match command {
        Command::Pack { text, file } => pack::pack(rt, text, file),
        Command::Show { file } => show::show(rt, file),
        Command::Check { paths, options } => check::check(rt, paths, options),
        Command::Slack { paths, options } => slack::slack(rt, paths, options),
        Command::Report { paths } => report::report(rt, paths),
        Command::Session { script } => script::session(rt, script),
        Command::Help => {
            rt.print(USAGE)?;
            Ok(Outcome::Granted)
        }
    }
}
