ghost use Rattle.std.specs.Prelude.{◌≡◌, ◌*◌, ◌<◌, ◌≤◌, length};
ghost use Rattle.delay_file.specs.Files.{register_run, view_registers};
ghost use Rattle.plan_report.specs.Report.{draft_report, head_line, name_at, register_line, register_lines};
ghost use Rattle.plan_report.specs.Reports.{RestStays, reported};
ghost use Rattle.plan_report.specs.Text.{HasRoom, Pushes};

use crate::text::Text;
use delay_file::fault::Fault;
use delay_file::view::FileView;
use plan_file::draft::Draft;
use timing::domain::Domain;
use timing::limits::{check_offset, check_period};
use timing::refusal::Refusal;

// The memory that the first line wants, and that each other wants.
pub const HEAD_ROOM: usize = 64;

pub const LINE_ROOM: usize = 32;

// Writes the report of a draft for the registers of a delay file, and answers how long it is. What lies past it stays as
// it was. Refused where the file does not open, then with 8, 7 and 9; a refusal leaves the memory whole.
pub fn report(file: &[u8], draft: &Draft<'_>, out: &mut [u8]) -> Result<usize, Fault>
    ensures answer { reported result out.new ≡ draft_report file.now draft.now (length out.old) }
    ensures rest { RestStays out.old out.new result }
{
    let view = FileView::open(file)?;
    check_period(draft.period).map_err(|refusal| Fault::of_file(refusal))?;
    check_offset(draft.offset).map_err(|refusal| Fault::of_file(refusal))?;
    let registers = view.registers();
    let count = registers as usize;
    if draft.domains.len() < count || out.len() < HEAD_ROOM + LINE_ROOM * count {
        return Err(Fault::of_file(Refusal::MemoryTooShort));
    }
    let mut text = Text::new(out);
    push_head(&mut text, draft, draft.late_count(registers));
    push_registers(&mut text, &view, draft);
    Ok(text.len())
}

// Puts the first line. Three numbers of 32 bits always fit the memory that it wants.
#[tactic(auto, using(crate::proofs::Digits::ten_digits))]
fn push_head(text: &mut Text<'_>, draft: &Draft<'_>, late: u32)
    requires { HasRoom text.old 64 }
    ensures { Pushes (head_line draft.now.period draft.now.offset late) text.old text.new }
{
    text.push_field(b"period ", draft.period);
    text.push_field(b" offset ", draft.offset);
    text.push_field(b" late ", late);
    text.push(b"\n");
}

// Puts a line for each register, in their order.
fn push_registers(text: &mut Text<'_>, view: &FileView<'_>, draft: &Draft<'_>)
    requires known { view_registers view.now ≤ register_run view.now.bytes.now }
    requires room { HasRoom text.old (32 * view_registers view.now) }
    ensures { Pushes (register_lines view.now.bytes.now (view_registers view.now) draft.now.domains.now) text.old text.new }
{
    // Each line moves the end of the text, so a chain would be no plainer.
    for register in 0..view.registers() {
        push_register(text, view, register, draft.domain(register));
    }
}

// Puts the line of a register, by the name that its record in the file has. A register that the file starts with always
// has one, so its line is never left out.
fn push_register(text: &mut Text<'_>, view: &FileView<'_>, register: u32, domain: Domain)
    requires there { register < view_registers view.now }
    requires known { register < register_run view.now.bytes.now }
    requires room { HasRoom text.old 32 }
    ensures { Pushes (register_line (name_at view.now.bytes.now register) domain) text.old text.new }
{
    if let Some(name) = view.name(register) {
        push_line(text, name, domain);
    }
}

// Puts the line of a register of this name.
fn push_line(text: &mut Text<'_>, name: &[u8], domain: Domain)
    requires { HasRoom text.old (length (register_line name.now domain)) }
    ensures { Pushes (register_line name.now domain) text.old text.new }
{
    text.push(name);
    text.push(b" ");
    text.push(domain.name().as_bytes());
    text.push(b"\n");
}
