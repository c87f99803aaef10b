use crate::mistake::Mistake;
use crate::words::{MOST_WORDS, read_request};
use planner::call::Call;
use std::alloc::{AllocError, Global};

// What a line of a script asks for. Files are named here, and read and written when their turn comes.
#[derive(Drop)]
pub enum Request<'t> {
    Open {
        registers: u32,
        places: usize,
    },
    Load(&'t str),
    Save {
        file: &'t str,
        registers: Option<&'t str>,
    },
    Perform(Call),
}

// A line that asks for something: its number, counted from 1, its text, and what it asks for.
#[derive(Drop)]
pub struct ScriptLine<'t> {
    pub number: usize,
    pub text: &'t str,
    pub request: Request<'t>,
}

// A script: its lines in their order, and those that could not be read, with what is wrong with each.
#[derive(Drop)]
pub struct Script<'t> {
    pub lines: Vec<ScriptLine<'t>>,
    pub mistakes: Vec<(usize, Mistake<'t>)>,
}

// Reads a whole script. A session must be opened before anything is asked of it.
pub fn read_script<'t>(heap: Global, text: &'t str) -> Result<Script<'t>, AllocError> {
    let mut script = Script {
        lines: Vec::new(heap),
        mistakes: Vec::new(heap),
    };
    let mut words = Vec::new(heap);
    for (number, line) in (1..).zip(text.lines()) {
        let line = line.trim();
        // A comment may be long, so it is not split into words.
        if line.starts_with('#') {
            continue;
        }
        words.clear();
        words.extend(line.split_whitespace().take(MOST_WORDS + 1))?;
        script.note(number, line, &words)?;
    }
    Ok(script)
}

impl<'t> Script<'t> {
    // Notes what a line asks for by its words, or what is wrong with it.
    fn note(&mut self, number: usize, text: &'t str, words: &[&'t str]) -> Result<(), AllocError> {
        match read_request(words) {
            Ok(None) => {}
            Ok(Some(request)) => {
                if self.lines.is_empty() && !matches!(request, Request::Open { .. }) {
                    self.mistakes.push((number, Mistake::NotOpen))?;
                }
                self.lines.push(ScriptLine {
                    number,
                    text,
                    request,
                })?;
            }
            Err(mistake) => self.mistakes.push((number, mistake))?,
        }
        Ok(())
    }
}
