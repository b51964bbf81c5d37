//! The next raise of the script is made.

ghost use Rattle.std.specs.Prelude.{◌≡◌, ◌<◌, ◌-◌, ◌^◌, IfErr, IfOk, slice_get};
ghost use Rattle.dc_bodies.specs.Scripted.{IsNextRaise, IsNoPoll, IsNoRaise, IsRaised};
ghost use Rattle.dc_bodies.specs.Raised.{raised_by};

use crate::entries::by_script;
use dc_base::commands::ScriptLine;
use dc_base::entries::{Entry, Reason, What};
use dc_base::numbers::LineNo;
use dc_lines::Line;
use dc_objects::ScriptState;

/// The line of the machine that this line of the script raises, if it is a raise.
fn raised_line(script: &ScriptState, q: u32) -> Option<LineNo>
    ensures { result ≡ raised_by (slice_get script.now.lines q) }
{
    match script.line(q) {
        Some(ScriptLine::Raise(line)) => Some(line),
        _ => None,
    }
}

/// The next raise of a script: its place, and the line of the machine that it raises.
#[derive(Clone, Copy)]
pub struct NextRaise {
    pub place: u32,
    pub line: LineNo,
}

/// The script's next raise, or why none is made.
pub fn next_raise(script: &ScriptState) -> Result<NextRaise, Reason>
    ensures raise { IfOk result (λ r. IsNextRaise script.now r.place r.line) }
    ensures none { IfErr result (IsNoRaise script.now) }
    ensures quiet { IfErr result IsNoPoll }
{
    let Some(place) = script.next_raise() else {
        return Err(Reason::NoRaise);
    };
    if place > script.first_unbegun() {
        return Err(Reason::CommandFirst);
    }
    match raised_line(script, place) {
        Some(line) => Ok(NextRaise { place, line }),
        None => Err(Reason::NoRaise),
    }
}

/// The script makes its next raise.
pub fn raise_held(script: &mut ScriptState, wire: &mut Line, next: NextRaise) -> Entry
    requires next { IsNextRaise script.old next.place next.line }
    requires room { wire.old.counts.raised < 2 ^ 32 - 1 }
    ensures { IsRaised next.line.0 script.old script.new wire.old wire.new result }
{
    let raised = wire.raise();
    script.raised();
    by_script(What::Raise {
        place: next.place,
        line: next.line,
        raised,
    })
}
