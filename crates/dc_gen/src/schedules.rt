//! The generated schedule: the numbers of a linear congruential generator, and the line of each.

ghost use Rattle.std.specs.Prelude.{◌≡◌, IfOk};
ghost use Rattle.dc_base.specs.Generated as spec;

use dc_base::actions::{Action, Actor};
use dc_base::memory::Memory;
use dc_base::numbers::{BlockNo, CoreNo, DispNo};
use dc_script::Schedule;
use std::alloc::Global;

/// How many lines a generated schedule has.
const LINES: u32 = 120_000;

/// The next number of the generator.
#[tactic(auto, using(crate::proofs::Numbers::next_number_wraps))]
fn next_number(x: u32) -> u32
    ensures { result ≡ spec.next_number x }
{
    x.wrapping_mul(1664525).wrapping_add(1013904223)
}

/// The line that a number gives.
#[tactic(auto, unfolding(dc_base::specs::Generated::generated_line))]
fn line_of(x: u32) -> (Actor, Action)
    ensures { result ≡ spec.generated_line x }
{
    let high = x / 65536;
    let core = CoreNo((high / 20) % 8);
    match high % 20 {
        0..=9 => (Actor::Core(core), Action::Step),
        10 | 11 => (Actor::Core(core), Action::Order),
        12..=17 => (
            Actor::Core(core),
            Action::Wake(BlockNo((high / 160) % 16), DispNo(0)),
        ),
        _ => (Actor::Script, Action::Script),
    }
}

/// So many lines behind a number.
fn lines_behind(alloc: Global, count: u32, first: u32) -> Result<Schedule, Memory>
    ensures { IfOk result (λ lines. lines ≡ spec.generated_lines count first) }
{
    let mut lines = Schedule::new(alloc);
    let mut x = first;
    for _ in 0..count {
        x = next_number(x);
        lines.push(line_of(x))?;
    }
    Ok(lines)
}

/// The schedule of number `n`.
#[tactic(auto, unfolding(dc_base::specs::Generated::generated_schedule))]
pub(crate) fn generate_schedule(alloc: Global, n: u32) -> Result<Schedule, Memory>
    ensures { IfOk result (λ schedule. schedule ≡ spec.generated_schedule n) }
{
    lines_behind(alloc, LINES, n)
}
