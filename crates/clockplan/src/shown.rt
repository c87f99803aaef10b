// How names, delays and pairs are printed. A pair is printed as a circuit's text has it.
use delay_file::view::FileView;
use std::{fmt, str};
use timing::limits::MISSING_DELAY;
use timing::pair::Pair;

// A register by its name, or by `#` and its number where it has none.
#[derive(Clone, Copy)]
pub struct ShownRegister<'a> {
    pub number: u32,
    pub name: Option<&'a [u8]>,
}

impl<'a> ShownRegister<'a> {
    // A register with the name that a file has for it.
    pub(crate) fn named(view: &FileView<'a>, number: u32) -> ShownRegister<'a> {
        ShownRegister {
            number,
            name: view.name(number),
        }
    }

    // A register by its number.
    fn numbered(number: u32) -> ShownRegister<'a> {
        ShownRegister { number, name: None }
    }
}

impl fmt::Display for ShownRegister<'_> {
    fn fmt<W: fmt::Write>(&self, f: &mut fmt::Formatter<W>) -> fmt::Result {
        match self.name.and_then(|name| str::from_utf8(name).ok()) {
            Some(name) => f.write_str(name),
            None => write!(f, "#{}", self.number),
        }
    }
}

// A delay, or `-` where it is missing.
#[derive(Clone, Copy)]
pub struct ShownDelay(pub i32);

impl fmt::Display for ShownDelay {
    fn fmt<W: fmt::Write>(&self, f: &mut fmt::Formatter<W>) -> fmt::Result {
        if self.0 == MISSING_DELAY {
            f.write_str("-")
        } else {
            write!(f, "{}", self.0)
        }
    }
}

#[derive(Clone, Copy)]
pub struct ShownPair<'a> {
    launch: ShownRegister<'a>,
    capture: ShownRegister<'a>,
    min: ShownDelay,
    max: ShownDelay,
}

impl<'a> ShownPair<'a> {
    // A pair with the names that a file has for its registers.
    pub(crate) fn named(view: &FileView<'a>, pair: Pair) -> ShownPair<'a> {
        ShownPair {
            launch: ShownRegister::named(view, pair.launch),
            capture: ShownRegister::named(view, pair.capture),
            min: ShownDelay(pair.min),
            max: ShownDelay(pair.max),
        }
    }

    // A pair by the numbers of its registers.
    pub(crate) fn numbered(pair: Pair) -> ShownPair<'a> {
        ShownPair {
            launch: ShownRegister::numbered(pair.launch),
            capture: ShownRegister::numbered(pair.capture),
            min: ShownDelay(pair.min),
            max: ShownDelay(pair.max),
        }
    }
}

impl fmt::Display for ShownPair<'_> {
    fn fmt<W: fmt::Write>(&self, f: &mut fmt::Formatter<W>) -> fmt::Result {
        write!(
            f,
            "pair {} {} {} {}",
            self.launch, self.capture, self.min, self.max
        )
    }
}
