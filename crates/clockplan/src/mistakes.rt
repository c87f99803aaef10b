ghost use Rattle.std.specs.Iterator.{IsFinite};

use std::fmt::Display;
use std::io;

// Says of each line that could not be read what is wrong with it.
pub(crate) fn tell_mistakes<'m, M: Display + 'm, I: Iterator<Item = (&'m usize, &'m M)>>(
    rt: &HostRuntime,
    mistakes: I,
) -> io::Result<()>
    requires { I.can_next mistakes × IsFinite (I.remaining mistakes) }
{
    for (line, mistake) in mistakes {
        println!(rt; "line {line}: {mistake}")?;
    }
    Ok(())
}
