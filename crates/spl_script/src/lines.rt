ghost use Rattle.std.specs.Prelude.{◌≡◌, ◌≤◌, ◌<◌, ◌+◌, [], ◌∷◌, drop, length, All, IfSome, IfNone};

use spl_message::{Call, Span};
use std::marker::Model;

/// What a line asks for.
#[derive(Debug, PartialEq, Eq, Drop)]
pub enum Deed {
    /// One call: a put or a lookup.
    One(Call),
    /// The pairs of a span, whose end is no longer than a key.
    Scan(Span),
}

/// A line of a script: who does what.
#[derive(Debug, PartialEq, Eq, Drop)]
pub struct ScriptLine {
    pub caller: u32,
    pub deed: Deed,
}

/// The lines of a script, in their order; at most 500,000. A caller's script is the lines with its number. A clause
/// sees the list of the lines.
#[derive(Debug, Drop)]
pub struct Scripts {
    lines: Vec<ScriptLine>,
}

impl Model for Scripts {
    ghost use Rattle.std.specs.Prelude.{◌≤◌, List, length, All};
    ghost use Rattle.spl_script.specs.declared.lines.ScriptLine.{ScriptLine};
    ghost use Rattle.spl_script.specs.Verb.{IsDeed};

    ghost Value = { List ScriptLine };

    ghost view = { λ s. s.lines.items };

    ghost invariant = { λ s. (length s.lines.items ≤ 500000) × All (λ line. IsDeed line.deed) s.lines.items };
}

impl Scripts {
    ghost use Rattle.spl_script.specs.Verb.{IsDeed, lines_of};

    /// The script of these lines, which takes no memory.
    pub fn of(lines: Vec<ScriptLine>) -> Scripts
        requires few { length lines.items ≤ 500000 }
        requires deeds { All (λ line. IsDeed line.deed) lines.items }
        ensures { result ≡ lines.items }
    {
        Scripts { lines }
    }

    /// The lines, in their order.
    pub fn lines(&self) -> &[ScriptLine]
        ensures value { result.now ≡ self.now }
        ensures small { length self.now ≤ 500000 }
        ensures deeds { All (λ line. IsDeed line.deed) self.now }
    {
        self.lines.as_slice()
    }

    /// The caller's next line at or behind a position, with its position.
    pub fn next_of(&self, caller: u32, from: usize) -> Option<(usize, &ScriptLine)>
        requires { from ≤ length self.now }
        ensures some { IfSome result (λ next.
            lines_of caller (drop from self.now) ≡ next.1.now ∷ lines_of caller (drop (next.0 + 1) self.now)) }
        ensures within { IfSome result (λ next. next.0 < length self.now) }
        ensures none { IfNone result (lines_of caller (drop from self.now) ≡ []) }
    {
        for at in from..self.lines.len() {
            let line = &self.lines[at];
            if line.caller == caller {
                return Some((at, line));
            }
        }
        None
    }

    /// The lines in a `Vec` again, which takes no memory.
    pub fn into_lines(self) -> Vec<ScriptLine>
        ensures lines { result.items ≡ self }
        ensures small { length self ≤ 500000 }
        ensures deeds { All (λ line. IsDeed line.deed) self }
    {
        let Scripts { lines } = self;
        lines
    }
}
