// The words of a line, one call each.
use crate::mistake::Mistake;
use crate::script::Request;
use circuit_text::line::read_delay;
use planner::call::Call;
use timing::limits::MAX_ENTRIES;
use timing::pair::Pair;

// The most words that a line may have. One word more tells that it has too many, so no further ones are looked at.
pub(crate) const MOST_WORDS: usize = 5;

// What a line asks for by its words; nothing where it has none.
pub(crate) fn read_request<'t>(words: &[&'t str]) -> Result<Option<Request<'t>>, Mistake<'t>> {
    match *words {
        [] => Ok(None),
        // As many pair places as a session can use, where none are asked for.
        ["open", registers] => Ok(Some(Request::Open {
            registers: number(registers)?,
            places: MAX_ENTRIES,
        })),
        ["open", registers, places] => {
            let places = number(places)? as usize;
            Ok(Some(Request::Open {
                registers: number(registers)?,
                places,
            }))
        }
        ["load", file] => Ok(Some(Request::Load(file))),
        // The pairs alone, or behind the register records of a delay file.
        ["save", file] => Ok(Some(Request::Save {
            file,
            registers: None,
        })),
        ["save", file, registers] => Ok(Some(Request::Save {
            file,
            registers: Some(registers),
        })),
        _ => Ok(Some(Request::Perform(read_call(words)?))),
    }
}

fn read_call<'t>(words: &[&'t str]) -> Result<Call, Mistake<'t>> {
    match *words {
        ["add", launch, capture, min, max] => Ok(Call::Add(pair(launch, capture, min, max)?)),
        ["retime", launch, capture, min, max] => Ok(Call::Retime(pair(launch, capture, min, max)?)),
        ["drop", launch, capture] => Ok(Call::DropPair {
            launch: number(launch)?,
            capture: number(capture)?,
        }),
        ["pin", register, domain] => {
            let domain = domain.parse().map_err(|_| misformed(words))?;
            Ok(Call::Pin {
                register: number(register)?,
                domain,
            })
        }
        ["unpin", register] => Ok(Call::Unpin(number(register)?)),
        ["ceiling", ceiling] => Ok(Call::SetCeiling(number(ceiling)?)),
        ["registers"] => Ok(Call::RegisterCount),
        ["entries"] => Ok(Call::EntryCount),
        ["entry", place] => Ok(Call::Entry(number(place)? as usize)),
        _ => Err(misformed(words)),
    }
}

// What is wrong with a line that has not the form of any call.
fn misformed<'t>(words: &[&'t str]) -> Mistake<'t> {
    let name = words.first().copied().unwrap_or_default();
    match form_of(name) {
        Some(form) => Mistake::Form(form),
        None => Mistake::UnknownCall(name),
    }
}

// The form that a call of this name has. The names stand here again, for a line that has a call's name and not its form.
fn form_of(name: &str) -> Option<&'static str> {
    match name {
        "open" => Some("open REGISTERS [PLACES]"),
        "load" => Some("load FILE"),
        "save" => Some("save FILE [FILE-WITH-THE-REGISTERS]"),
        "add" => Some("add LAUNCH CAPTURE MIN MAX"),
        "retime" => Some("retime LAUNCH CAPTURE MIN MAX"),
        "drop" => Some("drop LAUNCH CAPTURE"),
        "pin" => Some("pin REGISTER early|late"),
        "unpin" => Some("unpin REGISTER"),
        "ceiling" => Some("ceiling PS"),
        "registers" => Some("registers"),
        "entries" => Some("entries"),
        "entry" => Some("entry PLACE"),
        _ => None,
    }
}

// A pair by its words. Of several mistakes the delays' are told.
fn pair<'t>(
    launch: &'t str,
    capture: &'t str,
    min: &'t str,
    max: &'t str,
) -> Result<Pair, Mistake<'t>> {
    let min = delay(min)?;
    let max = delay(max)?;
    Ok(Pair {
        launch: number(launch)?,
        capture: number(capture)?,
        min,
        max,
    })
}

fn delay<'t>(word: &'t str) -> Result<i32, Mistake<'t>> {
    read_delay(word).ok_or(Mistake::Delay(word))
}

fn number<'t>(word: &'t str) -> Result<u32, Mistake<'t>> {
    word.parse().map_err(|_| Mistake::Number(word))
}
