//! The one entry that a line with these words may spell.

ghost use Rattle.std.specs.Prelude.{◌≡◌, drop, Some, if◌then◌else◌};
ghost use Rattle.std.specs.Option.{option_map};
ghost use Rattle.dc_base.specs.declared.entries.Entry.{Entry};
ghost use Rattle.dc_base.specs.declared.actions.Actor.TheVariants as actor;
ghost use Rattle.dc_base.specs.declared.entries.What.TheVariants as what;
ghost use Rattle.dc_base.specs.declared.interrupts.Latched.TheVariants as latched;
ghost use Rattle.dc_base.specs.TextWords.{is_word};
ghost use Rattle.dc_base.specs.LooseWords as spec;
ghost use Rattle.dc_base.specs.LooseEntries as entries;
ghost use Rattle.dc_journal.specs.Lines.{texts};

use crate::ends::{end_of, order_of, version_of};
use crate::refusals::refusal_of;
use crate::words::{block_at, core_at, is_at, last_number, line_at, number_at, word_at};
use dc_base::actions::Actor;
use dc_base::entries::{Entry, What};
use dc_base::interrupts::{Latched, Raised};
use dc_base::numbers::{DispNo, SignalNo};

/// The words behind the first `n`.
#[tactic(auto, using(crate::proofs::WordPlaces::texts_behind))]
fn words_behind<'w, 'a>(words: &'w [&'a [u8]], n: usize) -> &'w [&'a [u8]]
    ensures { texts result.now ≡ drop n (texts words.now) }
{
    if n < words.len() { &words[n..] } else { &[] }
}

/// A slice of a dispatcher.
fn slice_of(words: &[&[u8]]) -> Option<What>
    ensures { let ws = texts words.now in
        result ≡ option_map (λ e. what.Slice (record { 0 = spec.number_at ws 1 }) (record { 0 = spec.number_at ws 2 }) (spec.number_at ws 4)
        (spec.number_at ws 6) e (spec.last_number ws)) (entries.end_of (spec.word_at ws 7) (spec.word_at ws 8)) }
{
    match end_of(word_at(words, 7), word_at(words, 8)) {
        Some(end) => Some(What::Slice {
            block: block_at(words, 1),
            disp: DispNo(number_at(words, 2)),
            fired: number_at(words, 4),
            ran: number_at(words, 6),
            end,
            clock: last_number(words),
        }),
        None => None,
    }
}

/// A slice without a dispatcher.
fn slice_none_of(words: &[&[u8]]) -> What
    ensures { let ws = texts words.now in
        result ≡ what.SliceNone (record { 0 = spec.number_at ws 1 }) (spec.number_at ws 4) (spec.last_number ws) }
{
    What::SliceNone {
        block: block_at(words, 1),
        fired: number_at(words, 4),
        clock: last_number(words),
    }
}

/// Either slice.
fn any_slice_of(words: &[&[u8]]) -> Option<What>
    ensures { let ws = texts words.now in
        result ≡ (if is_word "-" (spec.word_at ws 2)
        then Some (what.SliceNone (record { 0 = spec.number_at ws 1 }) (spec.number_at ws 4) (spec.last_number ws))
        else option_map (λ e. what.Slice (record { 0 = spec.number_at ws 1 }) (record { 0 = spec.number_at ws 2 }) (spec.number_at ws 4) (spec.number_at ws 6)
        e (spec.last_number ws)) (entries.end_of (spec.word_at ws 7) (spec.word_at ws 8))) }
{
    if is_at(words, 2, "-") {
        Some(slice_none_of(words))
    } else {
        slice_of(words)
    }
}

/// A latched raise.
fn intake_of(words: &[&[u8]]) -> What
    ensures { let ws = texts words.now in
        result ≡ what.Intake (record { 0 = spec.number_at ws 1 }) (spec.number_at ws 2) (record { 0 = spec.number_at ws 3 })
        (record { 0 = spec.number_at ws 4 })
        (if is_word "latched" (spec.word_at ws 5) then latched.Latched else latched.Coalesced) }
{
    What::Intake {
        line: line_at(words, 1),
        number: number_at(words, 2),
        block: block_at(words, 3),
        signal: SignalNo(number_at(words, 4)),
        latched: latched_of(words),
    }
}

/// How a latch came to its signal.
fn latched_of(words: &[&[u8]]) -> Latched
    ensures { result ≡ (if is_word "latched" (spec.word_at (texts words.now) 5) then latched.Latched else latched.Coalesced) }
{
    if is_at(words, 5, "latched") {
        Latched::Latched
    } else {
        Latched::Coalesced
    }
}

/// A kernel that starts.
fn start_of(words: &[&[u8]]) -> Option<What>
    ensures { let ws = texts words.now in
        result ≡ option_map (λ v. what.Start v (spec.last_number ws)) (spec.version_of (spec.word_at ws 1)) }
{
    match version_of(word_at(words, 1)) {
        Some(version) => Some(What::Start {
            version,
            clock: last_number(words),
        }),
        None => None,
    }
}

/// A kernel that is replaced.
fn replace_of(words: &[&[u8]]) -> Option<What>
    ensures { result ≡ option_map what.Replace (spec.version_of (spec.word_at (texts words.now) 1)) }
{
    match version_of(word_at(words, 1)) {
        Some(version) => Some(What::Replace { version }),
        None => None,
    }
}

/// A block that is adopted.
fn adopt_of(words: &[&[u8]]) -> What
    ensures { let ws = texts words.now in
        result ≡ what.Adopt (record { 0 = spec.number_at ws 1 }) (is_word "parked" (spec.word_at ws 2)) (spec.last_number ws) }
{
    What::Adopt {
        block: block_at(words, 1),
        parked: is_at(words, 2, "parked"),
        time: last_number(words),
    }
}

/// What a core did, by the words behind the core's number.
#[tactic(auto, unfolding(dc_base::specs::LooseEntries::core_what))]
fn core_what(words: &[&[u8]]) -> Option<What>
    ensures { result ≡ entries.core_what (texts words.now) }
{
    if is_at(words, 0, "slice") {
        any_slice_of(words)
    } else if is_at(words, 0, "idle") {
        Some(What::Idle {
            clock: last_number(words),
        })
    } else if is_at(words, 0, "wake") {
        Some(What::Wake {
            block: block_at(words, 1),
            disp: DispNo(number_at(words, 2)),
        })
    } else if is_at(words, 0, "intake") {
        Some(intake_of(words))
    } else if is_at(words, 0, "start") {
        start_of(words)
    } else if is_at(words, 0, "stop") {
        Some(What::Stop {
            released: number_at(words, 1),
        })
    } else if is_at(words, 0, "replace") {
        replace_of(words)
    } else if is_at(words, 0, "adopt") {
        Some(adopt_of(words))
    } else if is_at(words, 0, "release") {
        Some(What::Release {
            block: block_at(words, 1),
            time: last_number(words),
        })
    } else {
        None
    }
}

/// An order that the script posts.
fn post_of(words: &[&[u8]], place: u32) -> Option<What>
    ensures { let ws = texts words.now in
        result ≡ option_map (what.Post place (record { 0 = spec.number_at ws 2 })) (entries.order_of (drop 3 ws)) }
{
    match order_of(words_behind(words, 3)) {
        Some(order) => Some(What::Post {
            place,
            core: core_at(words, 2),
            order,
        }),
        None => None,
    }
}

/// A command that is refused.
fn refused_of(words: &[&[u8]], place: u32) -> Option<What>
    ensures { result ≡ option_map (what.Refused place) (entries.refusal_of (drop 3 (texts words.now))) }
{
    match refusal_of(words_behind(words, 3)) {
        Some(refusal) => Some(What::Refused { place, refusal }),
        None => None,
    }
}

/// What became of a raise.
fn raised_of(words: &[&[u8]]) -> Raised
    ensures { let ws = texts words.now in
        result ≡ entries.raised_of (spec.number_at ws 3) (spec.word_at ws 4) }
{
    let number = number_at(words, 3);
    if is_at(words, 4, "pending") {
        Raised::Pended(number)
    } else if is_at(words, 4, "coalesced") {
        Raised::Coalesced(number)
    } else {
        Raised::Stray(number)
    }
}

/// What the script did, by the words from the number of its line on.
#[tactic(auto, unfolding(dc_base::specs::LooseEntries::script_what))]
fn script_what(words: &[&[u8]]) -> Option<What>
    ensures { result ≡ entries.script_what (texts words.now) }
{
    let place = number_at(words, 0);
    if is_at(words, 1, "post") {
        post_of(words, place)
    } else if is_at(words, 1, "done") {
        Some(What::Done { place })
    } else if is_at(words, 1, "refused") {
        refused_of(words, place)
    } else if is_at(words, 1, "raise") {
        Some(What::Raise {
            place,
            line: line_at(words, 2),
            raised: raised_of(words),
        })
    } else if is_at(words, 1, "route") {
        Some(What::Route {
            place,
            line: line_at(words, 2),
            core: core_at(words, 3),
        })
    } else if is_at(words, 1, "met") {
        Some(What::Met {
            place,
            block: block_at(words, 2),
            seen: number_at(words, 3),
        })
    } else if is_at(words, 1, "unmet") {
        Some(What::Unmet {
            place,
            block: block_at(words, 2),
            seen: number_at(words, 3),
        })
    } else {
        None
    }
}

/// An entry of a core.
fn core_entry(words: &[&[u8]]) -> Option<Entry>
    ensures { let ws = texts words.now in
        result ≡ option_map (λ w. record { actor = actor.Core (record { 0 = spec.number_at ws 2 }); what = w }) (entries.core_what (drop 3 ws)) }
{
    match core_what(words_behind(words, 3)) {
        Some(what) => Some(Entry {
            actor: Actor::Core(core_at(words, 2)),
            what,
        }),
        None => None,
    }
}

/// An entry of the script.
fn script_entry(words: &[&[u8]]) -> Option<Entry>
    ensures { result ≡ option_map (λ w. record { actor = actor.Script; what = w }) (entries.script_what (drop 2 (texts words.now))) }
{
    match script_what(words_behind(words, 2)) {
        Some(what) => Some(Entry {
            actor: Actor::Script,
            what,
        }),
        None => None,
    }
}

/// The one entry that a line with these words may spell.
#[tactic(auto, unfolding(dc_base::specs::LooseEntries::candidate))]
pub(crate) fn candidate(words: &[&[u8]]) -> Option<Entry>
    ensures { result ≡ entries.candidate (texts words.now) }
{
    if is_at(words, 1, "core") {
        core_entry(words)
    } else if is_at(words, 1, "script") {
        script_entry(words)
    } else {
        None
    }
}
