use crate::commands::Outcome;
use crate::files::{read_bytes, read_text, write_bytes};
use crate::mistakes::tell_mistakes;
use delay_file::fault::Fault;
use delay_file::layout::RECORD_BYTES;
use delay_file::view::FileView;
use planner::call::{Answer, Call};
use planner::runs::step;
use session::Session;
use session_text::script::{Request, ScriptLine, read_script};
use std::fmt::Write;
use timing::domain::FREE;
use timing::limits::{MAX_ENTRIES, MAX_REGISTERS};
use timing::pair::Pair;
use timing::refusal::Refusal;

// Performs the calls of a script one after another, with a line for each answer, and says at the end what was done. A
// script with a mistake in any line is not begun.
pub(crate) fn session(rt: &HostRuntime, path: &str) -> anyhow::Result<Outcome> {
    let heap = rt.alloc();
    let text = read_text(rt, path)?;
    let script = read_script(heap, text.as_str())?;
    if !script.mistakes.is_empty() {
        let mistakes = script
            .mistakes
            .iter()
            .map(|(line, mistake)| (line, mistake));
        tell_mistakes(rt, mistakes)?;
        println!(rt; "nothing in {path} was performed")?;
        return Ok(Outcome::Refused);
    }
    let mut out = String::new(heap);
    let mut desk = Desk {
        session: None,
        granted: 0,
        refused: 0,
    };
    for line in script.lines.iter() {
        desk.perform(rt, line, &mut out)?;
    }
    desk.sum_up(&mut out)?;
    rt.print(out.as_str())?;
    Ok(Outcome::granted_if(desk.refused == 0))
}

// The session that a script works on, and how its calls went.
#[derive(Drop)]
struct Desk {
    session: Option<Session>,
    granted: usize,
    refused: usize,
}

impl Desk {
    fn perform(
        &mut self,
        rt: &HostRuntime,
        line: &ScriptLine<'_>,
        out: &mut String,
    ) -> anyhow::Result<()> {
        write!(out, "line {}: {}: ", line.number, line.text)?;
        let counted = match self.answer(rt, &line.request, out)? {
            Outcome::Granted => &mut self.granted,
            Outcome::Refused => &mut self.refused,
        };
        *counted = counted.saturating_add(1);
        Ok(())
    }

    // Writes the answer to a request, and says whether it was granted.
    fn answer(
        &mut self,
        rt: &HostRuntime,
        request: &Request<'_>,
        out: &mut String,
    ) -> anyhow::Result<Outcome> {
        if let Request::Open { registers, places } = request {
            return self.open(rt, *registers, *places, out);
        }
        let Some(session) = &mut self.session else {
            writeln!(out, "no session is open")?;
            return Ok(Outcome::Refused);
        };
        match request {
            Request::Open { .. } => unreachable!(),
            Request::Load(file) => load(rt, session, file, out),
            Request::Save { file, registers } => save(rt, session, file, *registers, out),
            Request::Perform(call) => tell_answer(step(session, rt.alloc(), call), out),
        }
    }

    // Opens a session in place of an older one. More places than a session can use make no difference to it.
    fn open(
        &mut self,
        rt: &HostRuntime,
        registers: u32,
        places: usize,
        out: &mut String,
    ) -> anyhow::Result<Outcome> {
        let heap = rt.alloc();
        let none = Pair {
            launch: 0,
            capture: 0,
            min: 0,
            max: 0,
        };
        let pairs = vec![in heap; none; places.min(MAX_ENTRIES)]?;
        let pins = vec![in heap; 0u8; registers.min(MAX_REGISTERS) as usize]?;
        match Session::open(registers, pairs, pins) {
            Ok(session) => {
                self.session = Some(session);
                tell_granted(out)
            }
            Err(unopened) => tell_refusal(unopened.refusal, out),
        }
    }

    // How many calls were granted and refused, and what is then in force.
    fn sum_up(&self, out: &mut String) -> anyhow::Result<()> {
        let granted = self.granted;
        let refused = self.refused;
        let calls = granted.saturating_add(refused);
        writeln!(out, "calls {calls}, granted {granted}, refused {refused}")?;
        if let Some(session) = &self.session {
            let registers = session.registers();
            let pairs = session.pair_count();
            let pinned = pinned_count(session.pins());
            let ceiling = session.ceiling();
            writeln!(
                out,
                "in force: registers {registers}, pairs {pairs}, pinned {pinned}, ceiling {ceiling}"
            )?;
        }
        Ok(())
    }
}

// How many pin bytes pin their register.
fn pinned_count(pins: &[u8]) -> usize {
    pins.iter().filter(|pin| **pin < FREE).count()
}

// Loads a file into a session.
fn load(
    rt: &HostRuntime,
    session: &mut Session,
    path: &str,
    out: &mut String,
) -> anyhow::Result<Outcome> {
    match read_bytes(rt, path) {
        Ok(bytes) => tell_answer(step(session, rt.alloc(), &Call::Load(bytes)), out),
        Err(error) => {
            writeln!(out, "{error}")?;
            Ok(Outcome::Refused)
        }
    }
}

// Saves a session into a file: its pairs alone, or behind the register records of a delay file, where one is named.
fn save(
    rt: &HostRuntime,
    session: &mut Session,
    path: &str,
    registers: Option<&str>,
    out: &mut String,
) -> anyhow::Result<Outcome> {
    let heap = rt.alloc();
    let mut file = Vec::new(heap);
    if let Some(named) = registers {
        let bytes = read_bytes(rt, named)?;
        match register_records(bytes.as_slice(), session.registers()) {
            Ok(records) => file.extend_from_slice(records)?,
            Err(fault) => {
                writeln!(out, "{named}: {fault}")?;
                return Ok(Outcome::Refused);
            }
        }
    }
    match step(session, heap, &Call::Save) {
        Answer::Saved(Ok(pairs)) => {
            file.extend_from_slice(pairs.as_slice())?;
            write_bytes(rt, path, file.as_slice())?;
            writeln!(
                out,
                "granted, wrote {path}: records {}",
                file.len() / RECORD_BYTES
            )?;
            Ok(Outcome::Granted)
        }
        answer => tell_answer(answer, out),
    }
}

// The register records of a delay file with so many registers.
fn register_records<'a>(bytes: &'a [u8], registers: u32) -> Result<&'a [u8], Fault> {
    let view = FileView::open(bytes)?;
    if view.registers() != registers {
        return Err(Fault::of_file(Refusal::RegisterCount));
    }
    Ok(&bytes[..registers as usize * RECORD_BYTES])
}

fn tell_answer(answer: Answer, out: &mut String) -> anyhow::Result<Outcome> {
    match answer {
        Answer::Edited(Ok(())) | Answer::Loaded(Ok(())) => tell_granted(out),
        Answer::Edited(Err(refusal)) | Answer::Shown(Err(refusal)) => tell_refusal(refusal, out),
        Answer::Loaded(Err(fault)) => tell_fault(fault, out),
        Answer::Shown(Ok(pair)) => tell_pair(pair, out),
        Answer::Registers(count) => {
            writeln!(out, "registers {count}")?;
            Ok(Outcome::Granted)
        }
        Answer::Entries(count) => {
            writeln!(out, "entries {count}")?;
            Ok(Outcome::Granted)
        }
        Answer::Saved(saved) => {
            writeln!(out, "granted, bytes {}", saved?.len())?;
            Ok(Outcome::Granted)
        }
    }
}

fn tell_granted(out: &mut String) -> anyhow::Result<Outcome> {
    writeln!(out, "granted")?;
    Ok(Outcome::Granted)
}

fn tell_refusal(refusal: Refusal, out: &mut String) -> anyhow::Result<Outcome> {
    tell_fault(Fault::of_file(refusal), out)
}

fn tell_fault(fault: Fault, out: &mut String) -> anyhow::Result<Outcome> {
    writeln!(out, "{fault}")?;
    Ok(Outcome::Refused)
}

// A pair as `add` is given it.
fn tell_pair(pair: Pair, out: &mut String) -> anyhow::Result<Outcome> {
    let Pair {
        launch,
        capture,
        min,
        max,
    } = pair;
    writeln!(out, "pair {launch} {capture} {min} {max}")?;
    Ok(Outcome::Granted)
}
