use spl_message::NoMemory;
use std::alloc::{AllocError, AllocFailed};
use std::error::Error;
use std::fmt;

/// Why a line is faulty. Of several reasons the first that `specs/Verb.antt` tries is named.
#[derive(Clone, Copy, Debug, PartialEq, Eq)]
pub enum LineWhy {
    /// The input or the list of lines is too long: the line has byte 16,777,217, or is line 500,001.
    Size,
    /// The number of fields is not that of a line or of its verb.
    Fields,
    /// The first field is no caller.
    Caller,
    /// The second field is no verb.
    Verb,
    /// A value's field does not begin with `=`, or its text spells more than 512 bytes.
    Value,
    /// A field is no text.
    Text,
    /// A key's text spells no byte, or more than 64.
    Key,
}

impl fmt::Display for LineWhy {
    fn fmt<W: fmt::Write>(&self, f: &mut fmt::Formatter<W>) -> fmt::Result {
        match self {
            LineWhy::Size => write!(f, "size"),
            LineWhy::Fields => write!(f, "fields"),
            LineWhy::Caller => write!(f, "caller"),
            LineWhy::Verb => write!(f, "verb"),
            LineWhy::Value => write!(f, "value"),
            LineWhy::Text => write!(f, "text"),
            LineWhy::Key => write!(f, "key"),
        }
    }
}

/// Why there is no script of some bytes.
#[derive(Clone, Copy, Debug, PartialEq, Eq)]
pub enum ScriptFault {
    /// The first faulty line, counted from 1, and what is wrong with it.
    Line { line: u64, why: LineWhy },
    /// Memory ran out.
    NoMemory,
}

impl fmt::Display for ScriptFault {
    fn fmt<W: fmt::Write>(&self, f: &mut fmt::Formatter<W>) -> fmt::Result {
        match self {
            ScriptFault::Line { line, why } => write!(f, "line {line}: {why}"),
            ScriptFault::NoMemory => write!(f, "out of memory"),
        }
    }
}

impl Error for ScriptFault {}

impl<T: Drop> From<AllocFailed<T>> for ScriptFault {
    ghost use Rattle.std.specs.Prelude.{◌≡◌};
    ghost use Rattle.spl_script.specs.declared.reason.ScriptFault.TheVariants.{NoMemory as WantOfMemory};

    ghost from_gives = { λ _ e. e ≡ WantOfMemory };

    fn from(_e: AllocFailed<T>) -> ScriptFault {
        ScriptFault::NoMemory
    }
}

/// Why there is no call of a line's text.
#[derive(Clone, Copy, Debug, PartialEq, Eq)]
pub enum LineFault {
    Why(LineWhy),
    NoMemory,
}

impl From<NoMemory> for LineFault {
    ghost use Rattle.std.specs.Prelude.{◌≡◌};
    ghost use Rattle.spl_script.specs.declared.reason.LineFault.TheVariants.{NoMemory as WantOfMemory};

    ghost from_gives = { λ _ e. e ≡ WantOfMemory };

    fn from(_e: NoMemory) -> LineFault {
        LineFault::NoMemory
    }
}

impl From<NoMemory> for ScriptFault {
    ghost use Rattle.std.specs.Prelude.{◌≡◌};
    ghost use Rattle.spl_script.specs.declared.reason.ScriptFault.TheVariants.{NoMemory as WantOfMemory};

    ghost from_gives = { λ _ e. e ≡ WantOfMemory };

    fn from(_e: NoMemory) -> ScriptFault {
        ScriptFault::NoMemory
    }
}
