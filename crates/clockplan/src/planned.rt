// A delay file and a plan for it, as `check`, `slack` and `report` are given them.
ghost use Rattle.delay_file.specs.Files.{opened, opening, view_meaning, view_registers};
ghost use Rattle.plan_file.specs.PlanReading.{plan as the_plan, plan_reading};
ghost use Rattle.std.specs.Prelude.{◌≡◌, length, take, IfOk};

use crate::commands::{Outcome, Paths};
use crate::files::read_bytes;
use crate::problem::{Problem, tell_problem};
use delay_file::view::FileView;
use plan_file::draft::Draft;
use plan_file::plan_reader::{PlanNumbers, read_plan};
use timing::limits::MAX_REGISTERS;

// A delay file that was opened, and a draft of a plan for its registers.
#[derive(Drop)]
pub struct Planned<'a> {
    pub file: &'a [u8],
    pub view: FileView<'a>,
    pub draft: Draft<'a>,
}

// Reads a delay file and a plan for it, has something said of them, and prints that.
pub(crate) fn with_planned<F>(
    rt: &HostRuntime,
    paths: Paths<'_>,
    tell: F,
) -> anyhow::Result<Outcome>
where
    F: FnOnce(Planned<'_>, &mut String) -> anyhow::Result<Outcome>,
    requires { F.IsAlwaysCallable tell }
{
    let heap = rt.alloc();
    let file = read_bytes(rt, paths.file)?;
    let plan = read_bytes(rt, paths.plan)?;
    let mut domains = vec![in heap; 0; MAX_REGISTERS as usize]?;
    let mut out = String::new(heap);
    let outcome = match open_both(paths, &file, &plan, &mut domains) {
        Ok(opened) => tell(opened.planned(&file, &domains), &mut out)?,
        Err(problem) => tell_problem(problem, &mut out)?,
    };
    rt.print(out.as_str())?;
    Ok(outcome)
}

// A delay file that was opened, and the numbers of a plan with as many registers.
#[derive(Clone, Copy)]
struct Opened<'a> {
    view: FileView<'a>,
    numbers: PlanNumbers,
}

impl<'a> Opened<'a> {
    // The plan as a draft, its domains in this memory, beside the file that it is for.
    fn planned(self, file: &'a [u8], domains: &'a [u8]) -> Planned<'a>
        ensures file { (result.file.now ≡ file.now) × (result.view ≡ self.entry.view) }
        ensures numbers { (result.draft.period ≡ self.entry.numbers.period) × (result.draft.offset ≡ self.entry.numbers.offset) }
        ensures domains { result.draft.domains.now ≡ domains.now }
    {
        Planned {
            file,
            view: self.view,
            draft: self.numbers.draft(domains),
        }
    }
}

// Opens a delay file and reads a plan for it, the plan's domains into memory. Nothing is judged yet.
fn open_both<'a, 'p>(
    paths: Paths<'p>,
    file: &'a [u8],
    plan: &[u8],
    domains: &mut [u8],
) -> Result<Opened<'a>, Problem<'p>>
    ensures file { IfOk result (λ o. opened (view_meaning o.view) ≡ opening file.now) }
    ensures plan { IfOk result (λ o. the_plan o.numbers.period o.numbers.offset o.numbers.registers (take o.numbers.registers domains.new) ≡ plan_reading plan.now (length domains.old)) }
    ensures same { IfOk result (λ o. o.numbers.registers ≡ view_registers o.view) }
{
    let view = FileView::open(file).map_err(|fault| Problem::File {
        path: paths.file,
        fault,
    })?;
    let numbers = read_plan(plan, domains).map_err(|fault| Problem::File {
        path: paths.plan,
        fault,
    })?;
    if numbers.registers != view.registers() {
        return Err(Problem::OtherCircuit {
            paths,
            planned: numbers.registers,
            registers: view.registers(),
        });
    }
    Ok(Opened { view, numbers })
}
