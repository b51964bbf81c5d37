//! What an entry says, as words of its line.

ghost use Rattle.std.specs.Prelude.{◌≡◌, ◌+◌, ◌≤◌, [], ◌∷◌, length, IsTrue, decimal, codes};
ghost use Rattle.arrayvec.specs.ArrayString.{array_string_len};
ghost use Rattle.dc_base.specs.TextWords.{add_words};
ghost use Rattle.dc_base.specs.EntryText.{what_words, end_words, order_words, refusal_words, raised_words};
ghost use Rattle.dc_base.specs.EntryRanges.{is_of_core, is_of_script};

use crate::names::{adopted_name, latched_name, op_name, version_name};
use dc_base::calls::End;
use dc_base::commands::{Order, Refusal};
use dc_base::entries::What;
use dc_base::interrupts::Raised;
use dc_base::numbers::{BlockNo, CoreNo, DispNo};
use dc_text::{Line, push_u32, push_u64, push_word};

/// Adds what a core did.
pub(crate) fn push_core_what(line: &mut Line, what: &What)
    requires room { array_string_len line.old ≤ 100 }
    requires kind { IsTrue (is_of_core what.now) }
    ensures words { line.new.bytes ≡ add_words line.old.bytes (what_words what.now) }
    ensures len { array_string_len line.new ≤ array_string_len line.old + 110 }
{
    match *what {
        What::Slice {
            block,
            disp,
            fired,
            ran,
            end,
            clock,
        } => {
            push_slice(line, block, disp, fired);
            push_word(line, "ran");
            push_u32(line, ran);
            push_end(line, end);
            push_clock(line, clock);
        }
        What::SliceNone {
            block,
            fired,
            clock,
        } => {
            push_word(line, "slice");
            push_u32(line, block.0);
            push_word(line, "-");
            push_word(line, "fired");
            push_u32(line, fired);
            push_word(line, "ran");
            push_word(line, "0");
            push_word(line, "none");
            push_clock(line, clock);
        }
        What::Idle { clock } => {
            push_word(line, "idle");
            push_clock(line, clock);
        }
        What::Wake { block, disp } => {
            push_word(line, "wake");
            push_u32(line, block.0);
            push_u32(line, disp.0);
        }
        What::Intake {
            line: from,
            number,
            block,
            signal,
            latched,
        } => {
            push_word(line, "intake");
            push_u32(line, from.0);
            push_u32(line, number);
            push_u32(line, block.0);
            push_u32(line, signal.0);
            push_word(line, latched_name(latched));
        }
        What::Start { version, clock } => {
            push_word(line, "start");
            push_word(line, version_name(version));
            push_clock(line, clock);
        }
        What::Stop { released } => {
            push_word(line, "stop");
            push_u32(line, released);
        }
        What::Replace { version } => {
            push_word(line, "replace");
            push_word(line, version_name(version));
        }
        What::Adopt {
            block,
            parked,
            time,
        } => {
            push_word(line, "adopt");
            push_u32(line, block.0);
            push_word(line, adopted_name(parked));
            push_time(line, time);
        }
        What::Release { block, time } => {
            push_word(line, "release");
            push_u32(line, block.0);
            push_time(line, time);
        }
        _ => unreachable!(),
    }
}

/// Adds the dispatcher of a slice, and how many timers fired.
fn push_slice(line: &mut Line, block: BlockNo, disp: DispNo, fired: u32)
    requires { array_string_len line.old ≤ 100 }
    ensures words { line.new.bytes ≡ add_words line.old.bytes (codes "slice" ∷ decimal block.0 ∷ decimal disp.0 ∷ codes "fired" ∷ decimal fired ∷ []) }
    ensures len { array_string_len line.new ≤ array_string_len line.old + 45 }
{
    push_word(line, "slice");
    push_u32(line, block.0);
    push_u32(line, disp.0);
    push_word(line, "fired");
    push_u32(line, fired);
}

/// Adds a clock.
fn push_clock(line: &mut Line, clock: u64)
    requires { array_string_len line.old ≤ 200 }
    ensures words { line.new.bytes ≡ add_words line.old.bytes (codes "clock" ∷ decimal clock ∷ []) }
    ensures len { array_string_len line.new ≤ array_string_len line.old + 27 }
{
    push_word(line, "clock");
    push_u64(line, clock);
}

/// Adds the time of a block.
fn push_time(line: &mut Line, time: u64)
    requires { array_string_len line.old ≤ 200 }
    ensures words { line.new.bytes ≡ add_words line.old.bytes (codes "time" ∷ decimal time ∷ []) }
    ensures len { array_string_len line.new ≤ array_string_len line.old + 26 }
{
    push_word(line, "time");
    push_u64(line, time);
}

/// Adds how a slice ended.
fn push_end(line: &mut Line, end: End)
    requires { array_string_len line.old ≤ 200 }
    ensures words { line.new.bytes ≡ add_words line.old.bytes (end_words end) }
    ensures len { array_string_len line.new ≤ array_string_len line.old + 17 }
{
    match end {
        End::Quantum => push_word(line, "quantum"),
        End::Halt => push_word(line, "halt"),
        End::Trap(x) => {
            push_word(line, "trap");
            push_u32(line, x as u32);
        }
        End::Call(op) => {
            push_word(line, "call");
            push_word(line, op_name(op));
        }
        End::Hold(op) => {
            push_word(line, "hold");
            push_word(line, op_name(op));
        }
        End::Empty => push_word(line, "none"),
    }
}

/// Adds what the script did.
pub(crate) fn push_script_what(line: &mut Line, what: &What)
    requires room { array_string_len line.old ≤ 100 }
    requires kind { IsTrue (is_of_script what.now) }
    ensures words { line.new.bytes ≡ add_words line.old.bytes (what_words what.now) }
    ensures len { array_string_len line.new ≤ array_string_len line.old + 80 }
{
    match *what {
        What::Post { place, core, order } => {
            push_u32(line, place);
            push_word(line, "post");
            push_u32(line, core.0);
            push_order(line, order);
        }
        What::Done { place } => {
            push_u32(line, place);
            push_word(line, "done");
        }
        What::Refused { place, refusal } => {
            push_u32(line, place);
            push_word(line, "refused");
            push_refusal(line, refusal);
        }
        What::Raise {
            place,
            line: on,
            raised,
        } => {
            push_u32(line, place);
            push_word(line, "raise");
            push_u32(line, on.0);
            push_raised(line, raised);
        }
        What::Route {
            place,
            line: of,
            core,
        } => {
            push_u32(line, place);
            push_word(line, "route");
            push_u32(line, of.0);
            push_u32(line, core.0);
        }
        What::Met { place, block, seen } => {
            push_u32(line, place);
            push_word(line, "met");
            push_u32(line, block.0);
            push_u32(line, seen);
        }
        What::Unmet { place, block, seen } => {
            push_u32(line, place);
            push_word(line, "unmet");
            push_u32(line, block.0);
            push_u32(line, seen);
        }
        _ => unreachable!(),
    }
}

/// Adds an order.
fn push_order(line: &mut Line, order: Order)
    requires { array_string_len line.old ≤ 200 }
    ensures words { line.new.bytes ≡ add_words line.old.bytes (order_words order) }
    ensures len { array_string_len line.new ≤ array_string_len line.old + 25 }
{
    match order {
        Order::Start(version) => {
            push_word(line, "start");
            push_word(line, version_name(version));
        }
        Order::Stop => push_word(line, "stop"),
        Order::Replace(version) => {
            push_word(line, "replace");
            push_word(line, version_name(version));
        }
        Order::Adopt { block, parked } => {
            push_word(line, "adopt");
            push_u32(line, block.0);
            push_word(line, adopted_name(parked));
        }
        Order::Release(block) => {
            push_word(line, "release");
            push_u32(line, block.0);
        }
    }
}

/// Adds the number, the name and the fields of a refusal.
fn push_refusal(line: &mut Line, refusal: Refusal)
    requires { array_string_len line.old ≤ 200 }
    ensures words { line.new.bytes ≡ add_words line.old.bytes (refusal_words refusal) }
    ensures len { array_string_len line.new ≤ array_string_len line.old + 36 }
{
    match refusal {
        Refusal::AlreadyOn { core } => push_refused_core(line, "1", "AlreadyOn", core),
        Refusal::Off { core } => push_refused_core(line, "2", "Off", core),
        Refusal::SameVersion { core, version } => {
            push_refused_core(line, "3", "SameVersion", core);
            push_word(line, version_name(version));
        }
        Refusal::NotAtRest { block, core } => {
            push_refused_block(line, "4", "NotAtRest", block);
            push_u32(line, core.0);
        }
        Refusal::HomeTaken { core, block } => {
            push_refused_core(line, "5", "HomeTaken", core);
            push_u32(line, block.0);
        }
        Refusal::NotHome { block } => push_refused_block(line, "6", "NotHome", block),
        Refusal::NotParked { block } => push_refused_block(line, "7", "NotParked", block),
        Refusal::OnThatCore { block, core } => {
            push_refused_block(line, "8", "OnThatCore", block);
            push_u32(line, core.0);
        }
        Refusal::ShareFull { core } => push_refused_core(line, "9", "ShareFull", core),
    }
}

/// Adds a refusal's number, its name and a core.
fn push_refused_core(line: &mut Line, number: &str, name: &str, core: CoreNo)
    requires room { array_string_len line.old ≤ 200 }
    requires one { length number.now ≤ 1 }
    requires short { length name.now ≤ 11 }
    ensures words { line.new.bytes ≡ add_words line.old.bytes (number.now ∷ name.now ∷ decimal core.0 ∷ []) }
    ensures len { array_string_len line.new ≤ array_string_len line.old + 25 }
{
    push_word(line, number);
    push_word(line, name);
    push_u32(line, core.0);
}

/// Adds a refusal's number, its name and a block.
fn push_refused_block(line: &mut Line, number: &str, name: &str, block: BlockNo)
    requires room { array_string_len line.old ≤ 200 }
    requires one { length number.now ≤ 1 }
    requires short { length name.now ≤ 11 }
    ensures words { line.new.bytes ≡ add_words line.old.bytes (number.now ∷ name.now ∷ decimal block.0 ∷ []) }
    ensures len { array_string_len line.new ≤ array_string_len line.old + 25 }
{
    push_word(line, number);
    push_word(line, name);
    push_u32(line, block.0);
}

/// Adds the number of a raise, and what became of it.
fn push_raised(line: &mut Line, raised: Raised)
    requires { array_string_len line.old ≤ 200 }
    ensures words { line.new.bytes ≡ add_words line.old.bytes (raised_words raised) }
    ensures len { array_string_len line.new ≤ array_string_len line.old + 21 }
{
    match raised {
        Raised::Pended(n) => {
            push_u32(line, n);
            push_word(line, "pending");
        }
        Raised::Coalesced(n) => {
            push_u32(line, n);
            push_word(line, "coalesced");
        }
        Raised::Stray(n) => {
            push_u32(line, n);
            push_word(line, "stray");
        }
    }
}
