ghost use Rattle.clockplan.specs.Verdicts.{is_granted};
ghost use Rattle.std.specs.Prelude.{◌≡◌};

use std::process::ExitCode;

// What the program was asked to do. The options of a command are read by the command itself.
#[derive(Clone, Copy)]
pub enum Command<'w> {
    Pack {
        text: &'w str,
        file: &'w str,
    },
    Show {
        file: &'w str,
    },
    Check {
        paths: Paths<'w>,
        options: &'w [&'w str],
    },
    Slack {
        paths: Paths<'w>,
        options: &'w [&'w str],
    },
    Report {
        paths: Paths<'w>,
    },
    Session {
        script: &'w str,
    },
    Help,
}

// Where a delay file and a plan for it are.
#[derive(Clone, Copy)]
pub struct Paths<'w> {
    pub file: &'w str,
    pub plan: &'w str,
}

// Whether everything was granted; after a refusal the program ends with status 1.
#[derive(Clone, Copy, PartialEq, Eq)]
pub enum Outcome {
    Granted,
    Refused,
}

impl Outcome {
    // Granted exactly where this holds.
    pub(crate) fn granted_if(holds: bool) -> Outcome
        ensures { is_granted result ≡ holds }
    {
        if holds {
            Outcome::Granted
        } else {
            Outcome::Refused
        }
    }
}

impl From<Outcome> for ExitCode {
    fn from(outcome: Outcome) -> ExitCode {
        match outcome {
            Outcome::Granted => ExitCode::SUCCESS,
            Outcome::Refused => ExitCode::FAILURE,
        }
    }
}

pub const USAGE: &str = "clockplan: plan two clock domains from path delays

  clockplan pack TEXT FILE               make a delay file of a circuit in text form
  clockplan show FILE                    list the records of a delay file or of a plan file, and what is wrong with them
  clockplan check FILE PLAN [OPTION]..   say whether a plan is legal for a delay file, or what it breaks first
      --ceiling PS                       the greatest offset allowed; 1,000,000 where it is not given
      --pin NAME=early, --pin NAME=late  the clock that a register must have
  clockplan slack FILE PLAN [OPTION]     list the entries that have the least to spare under a plan
      --count N                          how many of them; 10 where it is not given
  clockplan report FILE PLAN             print a plan with the names of its registers
  clockplan session SCRIPT               perform the calls of a session, one a line, and answer each by a line
  clockplan help                         this page

Several commands in a row are separated by the word `then`; the first that is refused ends them.
A text has a line for each register, `register NAME`, and for each pair, `pair LAUNCH CAPTURE MIN MAX`: the names
of two registers, and the shortest and the longest delay between them in whole picoseconds, `-` where one is missing.
A script's calls: `open REGISTERS [PLACES]`, `add` and `retime LAUNCH CAPTURE MIN MAX`, `drop LAUNCH CAPTURE`,
`pin REGISTER early` or `late`, `unpin REGISTER`, `ceiling PS`, `load FILE`, `save FILE [FILE-WITH-THE-REGISTERS]`,
`registers`, `entries` and `entry PLACE`; registers go by their numbers there.
A refusal is printed as `refused NUMBER: words` and ends with status 1.
";

// The command that these words are, if they are one.
pub(crate) fn read_command<'w>(words: &'w [&'w str]) -> Option<Command<'w>> {
    match *words {
        ["pack", text, file] => Some(Command::Pack { text, file }),
        ["show", file] => Some(Command::Show { file }),
        ["check", file, plan, ..] => Some(Command::Check {
            paths: Paths { file, plan },
            options: &words[3..],
        }),
        ["slack", file, plan, ..] => Some(Command::Slack {
            paths: Paths { file, plan },
            options: &words[3..],
        }),
        ["report", file, plan] => Some(Command::Report {
            paths: Paths { file, plan },
        }),
        ["session", script] => Some(Command::Session { script }),
        ["help"] => Some(Command::Help),
        _ => None,
    }
}
