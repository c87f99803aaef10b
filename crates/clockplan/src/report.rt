use crate::commands::{Outcome, Paths};
use crate::planned::{Planned, with_planned};
use crate::problem::{Problem, tell_problem};
use plan_report::report::{self, HEAD_ROOM, LINE_ROOM};
use std::alloc::Global;
use timing::limits::MAX_REGISTERS;

// The memory that a report of the most registers wants.
const REPORT_BYTES: usize = HEAD_ROOM + LINE_ROOM * MAX_REGISTERS as usize;

// Prints the report of a plan, with the names that a delay file has for its registers.
pub(crate) fn report(rt: &HostRuntime, paths: Paths<'_>) -> anyhow::Result<Outcome> {
    with_planned(
        rt,
        paths,
        |planned, out| tell_report(rt.alloc(), paths, &planned, out),
    )
}

// What is printed is the memory of the report itself, and no copy of it.
fn tell_report(
    heap: Global,
    paths: Paths<'_>,
    planned: &Planned<'_>,
    out: &mut String,
) -> anyhow::Result<Outcome> {
    let mut text = vec![in heap; 0; REPORT_BYTES]?;
    match report::report(planned.file, &planned.draft, &mut text) {
        Ok(length) => {
            text.truncate(length);
            *out = String::from_utf8(text)?;
            Ok(Outcome::Granted)
        }
        Err(fault) => tell_problem(
            Problem::File {
                path: paths.file,
                fault,
            },
            out,
        ),
    }
}
