ghost use Rattle.std.specs.Prelude.{◌≡◌, ◌<◌, true, IfOk};
ghost use Rattle.delay_file.specs.Records.{lawful_name};

use crate::line::{Line, MOST_WORDS, PairLine, read_line};
use crate::mistake::Problem;
use delay_file::names::is_lawful_name;
use std::alloc::{AllocError, Global};
use std::collections::BTreeMap;
use timing::limits::MAX_REGISTERS;
use timing::pair::Pair;

// A circuit as its text has it: the names of its registers by their number, its pairs in their order, and the lines
// that could not be read, counted from 1, with what is wrong with each.
#[derive(Drop)]
pub struct Circuit<'t> {
    pub names: Vec<&'t [u8]>,
    pub pairs: Vec<Pair>,
    pub mistakes: BTreeMap<usize, Problem<'t>>,
}

// Reads a whole text. Registers are numbered in the order of their lines; a pair may stand before its registers, so the
// pairs wait until every name is known.
pub fn read_circuit<'t>(heap: Global, text: &'t str) -> Result<Circuit<'t>, AllocError> {
    let mut circuit = Circuit {
        names: Vec::new(heap),
        pairs: Vec::new(heap),
        mistakes: BTreeMap::new(heap),
    };
    let mut numbers = BTreeMap::new(heap);
    let mut waiting = Vec::new(heap);
    let mut words = Vec::new(heap);
    for (at, line) in (1..).zip(text.lines()) {
        let line = line.trim_start();
        // A comment may be long, so it is not split into words.
        if line.starts_with('#') {
            continue;
        }
        words.clear();
        words.extend(line.split_whitespace().take(MOST_WORDS + 1))?;
        match circuit.value_or_note(at, read_line(&words))?.flatten() {
            None => {}
            Some(Line::Pair(pair)) => waiting.push((at, pair))?,
            Some(Line::Register(name)) => {
                if let Some(number) = circuit.value_or_note(at, next_number(&numbers, name))? {
                    numbers.insert(name, number)?;
                    circuit.names.push(name.as_bytes())?;
                }
            }
        }
    }
    for (at, pair) in &waiting {
        if let Some(pair) = circuit.value_or_note(*at, resolved(&numbers, *pair))? {
            circuit.pairs.push(pair)?;
        }
    }
    Ok(circuit)
}

impl<'t> Circuit<'t> {
    // What was read of a line, where nothing is wrong with it; what is wrong is noted.
    fn value_or_note<T: Drop>(
        &mut self,
        at: usize,
        read: Result<T, Problem<'t>>,
    ) -> Result<Option<T>, AllocError> {
        match read {
            Ok(value) => Ok(Some(value)),
            Err(problem) => {
                self.mistakes.insert(at, problem)?;
                Ok(None)
            }
        }
    }
}

// The number of a new register, if it may have its name.
fn next_number<'t>(numbers: &BTreeMap<&'t str, u32>, name: &'t str) -> Result<u32, Problem<'t>>
    ensures { IfOk result (λ n. (n < 4096) × (lawful_name name.now ≡ true)) }
{
    if !is_lawful_name(name.as_bytes()) {
        return Err(Problem::Name(name));
    }
    if numbers.contains_key(name) {
        return Err(Problem::NameAgain(name));
    }
    u32::try_from(numbers.len())
        .ok()
        .filter(|&number| number < MAX_REGISTERS)
        .ok_or(Problem::TooManyRegisters)
}

// A pair by the numbers of its registers.
fn resolved<'t>(numbers: &BTreeMap<&'t str, u32>, line: PairLine<'t>) -> Result<Pair, Problem<'t>>
    ensures { IfOk result (λ p. (p.min ≡ line.entry.min) × (p.max ≡ line.entry.max)) }
{
    Ok(Pair {
        launch: number_of(numbers, line.launch)?,
        capture: number_of(numbers, line.capture)?,
        min: line.min,
        max: line.max,
    })
}

// The number of the register of a name.
fn number_of<'t>(numbers: &BTreeMap<&'t str, u32>, name: &'t str) -> Result<u32, Problem<'t>> {
    numbers.get(name).copied().ok_or(Problem::NoSuchName(name))
}
