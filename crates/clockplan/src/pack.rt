use crate::commands::Outcome;
use crate::files::{read_text, write_bytes};
use crate::mistakes::tell_mistakes;
use crate::show::{record_of, show_faulty};
use circuit_text::circuit::read_circuit;
use delay_file::layout::RECORD_BYTES;
use delay_file::view::FileView;
use delay_file::whole_file::encode_file;
use delay_file::write_error::WriteError;
use std::alloc::AllocError;
use timing::source::DelaySource;

// Makes a delay file of a text, saying what was done. Where the text has a mistake, or the file would not open,
// nothing is written. Entries that are written as the text has them and will be refused are listed.
pub(crate) fn pack(rt: &HostRuntime, text_path: &str, file_path: &str) -> anyhow::Result<Outcome> {
    let heap = rt.alloc();
    let text = read_text(rt, text_path)?;
    let circuit = read_circuit(heap, text.as_str())?;
    let registers = circuit.names.len();
    let pairs = circuit.pairs.len();
    println!(rt; "read {text_path}: registers {registers}, pairs {pairs}")?;
    if !circuit.mistakes.is_empty() {
        tell_mistakes(rt, circuit.mistakes.iter())?;
        println!(rt; "{file_path} is not written")?;
        return Ok(Outcome::Refused);
    }
    match encode_file(heap, &circuit.names, &circuit.pairs) {
        Ok(bytes) => write_file(rt, file_path, &bytes),
        Err(WriteError::Refused(fault)) => {
            println!(rt; "{fault}")?;
            println!(rt; "{file_path} is not written")?;
            Ok(Outcome::Refused)
        }
        // That memory ran out is all there is to know of it, so nothing of the error was kept.
        Err(WriteError::Memory) => Err(AllocError.into()),
    }
}

fn write_file(rt: &HostRuntime, path: &str, bytes: &[u8]) -> anyhow::Result<Outcome> {
    write_bytes(rt, path, bytes)?;
    let length = bytes.len();
    println!(rt;
        "wrote {path}: records {}, bytes {length}",
        length / RECORD_BYTES
    )?;
    match FileView::open(bytes) {
        Ok(view) => tell_faulty(rt, &view),
        Err(fault) => {
            println!(rt; "{fault}")?;
            Ok(Outcome::Refused)
        }
    }
}

fn tell_faulty(rt: &HostRuntime, view: &FileView<'_>) -> anyhow::Result<Outcome> {
    let mut out = String::new(rt.alloc());
    // Every line can fail, so a chain would be no plainer.
    for place in 0..view.entry_count() {
        if let Err(fault) = view.pair(place) {
            show_faulty(view, record_of(view, place), fault, &mut out)?;
        }
    }
    rt.print(out.as_str())?;
    Ok(Outcome::granted_if(out.is_empty()))
}
