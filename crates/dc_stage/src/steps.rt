//! Single steps on the words of the stage.
ghost use Rattle.std.specs.Prelude.{[], ◌∷◌, ◌≡◌, ℕ, ◌+◌, ◌^◌, ◌<◌, true, false, Some, length};
ghost use mathlib.Core.Option.{none};
ghost use Rattle.atomic_table.specs.Table.{step, rest};
ghost use Rattle.dc_stage.specs.Numbers.{has};
ghost use Rattle.dc_stage.specs.History.{own, after, TouchesOnly, IsLawfulAfter};
ghost use Rattle.dc_stage.specs.Views.{giving, taking_in};
ghost use Rattle.dc_stage.specs.Steps.{SitsAt, took, committed, looked, Reaches};

use crate::rule::{
    CommitPlay, EndPass, GivePlay, LookPlay, NamesEntry, SeatOf, SharedBoard, TakePlay,
};
use crate::scene::Scene;
use crate::taken::Taken;
use std::marker::Brand;

/// Writes the actor's number into the turn of object `i` where that is 0, and tells what was there.
fn try_turn<S: Scene>(board: &SharedBoard<S>, seat: &mut SeatOf<S>, actor: u64, i: u32) -> u64
    requires place { SitsAt seat.old.table_id board.now.table_id }
    requires object { i < board.now.table_id.slots }
    requires view { (seat.old.me.0.live ≡ true) × (seat.old.me.0.actor ≡ actor) × (actor < 64)
        × (has i seat.old.me.0.holds ≡ false) }
    ensures same { (seat.new.table_id ≡ seat.old.table_id) × (seat.new.id ≡ seat.old.id) }
    ensures told { took S.meaning S.state (step board.now.table_id.slots (i + 1) 0 (actor + 1) none) seat.old.me result seat.new.me }
{
    board.compare_exchange::<TakePlay>(seat, i as usize + 1, 0, actor + 1)
}

/// Takes object `i` out, or finds who has it.
pub fn take<S: Scene>(
    board: &SharedBoard<S>,
    seat: &mut SeatOf<S>,
    actor: u64,
    i: u32,
) -> Taken<S::Object>
    requires place { SitsAt seat.old.table_id board.now.table_id }
    requires object { i < board.now.table_id.slots }
    requires view { (seat.old.me.0.live ≡ true) × (seat.old.me.0.actor ≡ actor) × (actor < 64)
        × (has i seat.old.me.0.holds ≡ false) }
    ensures same { (seat.new.table_id ≡ seat.old.table_id) × (seat.new.id ≡ seat.old.id) }
    ensures told { Reaches S.meaning S.state seat.old.me i result seat.new.me }
{
    let found = try_turn::<S>(board, seat, actor, i);
    if found != 0 {
        return Taken::Busy {
            by: (found - 1) as u32,
        };
    }
    let Some(object) = board.exchange(seat, i as usize, None) else {
        unreachable!()
    };
    Taken::Got(object)
}

/// Adds one to the length of the history, under the entry that M names, and tells what it was.
fn commit_as<S: Scene, M: NamesEntry<S::Entry>>(
    board: &SharedBoard<S>,
    seat: &mut SeatOf<S>,
    entry: &S::Entry,
) -> u64
    requires place { SitsAt seat.old.table_id board.now.table_id }
    requires entry { M.entry ≡ Some entry.now }
    requires view { (seat.old.me.0.live ≡ true) × (seat.old.me.0.scene ≡ Some board.now.key)
        × (length (own seat.old.me.0.actor seat.old.me.0.seen) < 2 ^ 56) }
    requires held { TouchesOnly (S.meaning board.now.key) seat.old.me.0.holds seat.old.me.0.seen seat.old.me.0.actor entry.now }
    requires lawful { IsLawfulAfter (S.meaning board.now.key) seat.old.me.0.seen seat.old.me.0.actor entry.now }
    ensures same { (seat.new.table_id ≡ seat.old.table_id) × (seat.new.id ≡ seat.old.id) }
    ensures told { committed S.meaning (Some entry.now) (step board.now.table_id.slots 0 1 0 none) seat.old.me result seat.new.me }
{
    board.fetch_add::<CommitPlay<M>>(seat, 0, 1)
}

/// Adds the entry to the history, and tells its place there.
pub fn commit<S: Scene>(board: &SharedBoard<S>, seat: &mut SeatOf<S>, entry: &S::Entry) -> u64
    requires place { SitsAt seat.old.table_id board.now.table_id }
    requires view { (seat.old.me.0.live ≡ true) × (seat.old.me.0.scene ≡ Some board.now.key)
        × (length (own seat.old.me.0.actor seat.old.me.0.seen) < 2 ^ 56) }
    requires held { TouchesOnly (S.meaning board.now.key) seat.old.me.0.holds seat.old.me.0.seen seat.old.me.0.actor entry.now }
    requires lawful { IsLawfulAfter (S.meaning board.now.key) seat.old.me.0.seen seat.old.me.0.actor entry.now }
    ensures same { (seat.new.table_id ≡ seat.old.table_id) × (seat.new.id ≡ seat.old.id) }
    ensures told { committed S.meaning (Some entry.now) (step board.now.table_id.slots 0 1 0 none) seat.old.me result seat.new.me }
{
    commit_as::<S, Brand>(board, seat, entry)
}

/// Reads the length of the history.
pub fn look<S: Scene>(board: &SharedBoard<S>, seat: &mut SeatOf<S>) -> u64
    requires place { SitsAt seat.old.table_id board.now.table_id }
    requires view { seat.old.me.0.live ≡ true }
    ensures same { (seat.new.table_id ≡ seat.old.table_id) × (seat.new.id ≡ seat.old.id) }
    ensures told { looked S.meaning (step board.now.table_id.slots 0 0 0 none) seat.old.me result seat.new.me }
{
    board.load::<LookPlay>(seat, 0)
}

/// Puts the object into slot `i`, which is the one that was taken last, and gives it back.
pub fn give<S: Scene>(
    board: &SharedBoard<S>,
    seat: &mut SeatOf<S>,
    actor: u64,
    i: u32,
    object: S::Object,
)
    requires place { SitsAt seat.old.table_id board.now.table_id }
    requires object { i < board.now.table_id.slots }
    requires view { (seat.old.me.0.live ≡ true) × (seat.old.me.0.scene ≡ Some board.now.key)
        × (seat.old.me.0.actor ≡ actor) × (actor < 64) × (has i seat.old.me.0.holds ≡ true) }
    requires slot { (old : _) × (seat.old.me.1 ≡ (i, old) ∷ rest seat.old.me.1) }
    requires state { S.state object ≡ after (S.meaning board.now.key) seat.old.me.0.seen i }
    ensures same { (seat.new.table_id ≡ seat.old.table_id) × (seat.new.id ≡ seat.old.id) }
    ensures told { seat.new.me ≡ (giving seat.old.me.0 i, rest seat.old.me.1) }
{
    let _ = board.exchange(seat, i as usize, Some(object));
    board.compare_exchange::<GivePlay>(seat, i as usize + 1, actor + 1, 0);
}

/// Takes in what another pass knew, which ends.
pub fn join<S: Scene>(board: &SharedBoard<S>, seat: &mut SeatOf<S>, other: SeatOf<S>)
    requires place { SitsAt seat.old.table_id board.now.table_id }
    requires other_place { other.table_id ≡ board.now.table_id }
    requires first { (seat.old.me.0.live ≡ true) × (seat.old.me.0.first ≡ true) }
    requires other { (other.me.0.live ≡ true) × (other.me.0.holds ≡ []) × (other.me.1 ≡ []) }
    ensures same { (seat.new.table_id ≡ seat.old.table_id) × (seat.new.id ≡ seat.old.id) }
    ensures told { seat.new.me ≡ (taking_in seat.old.me.0 other.me.0, seat.old.me.1) }
{
    board.join_seat::<EndPass>(seat, other);
}
