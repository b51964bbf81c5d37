//! The calls of a stage.
ghost use Rattle.std.specs.Prelude.{◌≡◌, ℕ, ◌^◌, ◌<◌, true, false, length, []};
ghost use Rattle.dc_stage.specs.Numbers.{has};
ghost use Rattle.dc_stage.specs.History.{own, after};
ghost use Rattle.dc_stage.specs.Passes.{IsOf, IsAlone, having_seen, having_put, having_made, made_by};
ghost use Rattle.dc_stage.specs.Calls.{IsGot, HoldsTouched, IsLawfulNext, SeesMore, Commits, Tries, Joins};

use crate::pass::Pass;
use crate::rule::{Board, MakePass};
use crate::scene::Scene;
use crate::taken::Taken;
use crate::{carried, steps};
use arrayvec::ArrayVec;
use std::boxed::Box;
use std::marker::Model;

/// Objects that actors take, change and put back, and one history of what they did. Threads share it by reference.
/// Contracts see which stage it is, its scene, and how many objects and actors it has.
#[derive(Drop)]
pub struct Stage<S: Scene> {
    pub(crate) board: Board<S>,
    pub(crate) actors: u32,
    /// In a box, or no caller with a scene of its own could pass a stage by value.
    pub(crate) scene: Box<S>,
}

impl<S: Scene> Model for Stage<S> {
    ghost use Rattle.std.specs.Prelude.{◌≡◌, ℕ, ◌+◌, ◌≤◌, ◌<◌};
    ghost use Rattle.dc_stage.specs.Passes.{Setting};

    ghost Value = { Setting S };

    ghost view = { λ s. record {
      table_id = s.board.shared.table_id;
      scene = s.board.shared.key;
      objects = s.board.shared.table_id.slots;
      actors = s.actors;
    } };

    ghost invariant = { λ s.
        (s.board.shared.table_id.words ≡ s.board.shared.table_id.slots + 1)
        × (s.board.shared.table_id.slots ≤ 1024)
        × (s.actors < 64)
        × (s.scene.value ≡ s.board.shared.key) };
}

/// The place of an entry in the history.
#[derive(Clone, Copy, Debug, Default, PartialEq, Eq)]
pub struct Ticket(pub u64);

impl<S: Scene> Stage<S> {
    /// What it is for.
    pub fn scene(&self) -> &S
        ensures { result.now ≡ self.now.scene }
    {
        &*self.scene
    }

    /// Makes the pass of the next actor. It has seen what the first pass had seen, and holds nothing.
    pub fn split(&self, pass: &mut Pass<S>) -> Pass<S>
        requires stage { IsOf pass.old self.now }
        requires first { pass.old.first ≡ true }
        requires room { pass.old.made < self.now.actors }
        ensures same { pass.new ≡ having_made pass.old }
        ensures new { result ≡ made_by pass.old }
    {
        let seat = self.board.shared.split_seat::<MakePass>(&mut pass.seat);
        let actor = pass.made;
        pass.made += 1;
        Pass {
            seat,
            actor,
            made: 0,
            held: ArrayVec::new(),
            room: None,
        }
    }

    /// Takes object `i`, or tells which other actor had it. It waits for nobody.
    /// A refused take changes nothing but the pass's list of them.
    pub fn try_take(&self, pass: &mut Pass<S>, i: u32) -> Taken<S::Object>
        requires stage { IsOf pass.old self.now }
        requires object { i < self.now.objects }
        requires free { has i pass.old.holds ≡ false }
        ensures tries { Tries (S.meaning self.now.scene) S.state pass.old pass.new i result }
        ensures alone { IsAlone pass.old → IsGot result }
    {
        match steps::take::<S>(&self.board.shared, &mut pass.seat, pass.actor, i) {
            Taken::Got(object) => {
                pass.held.insert(0, i);
                Taken::Got(object)
            }
            Taken::Busy { by } => Taken::Busy { by },
        }
    }

    /// Adds an entry to the history, and tells its place there.
    pub fn commit(&self, pass: &mut Pass<S>, entry: &S::Entry) -> Ticket
        requires stage { IsOf pass.old self.now }
        requires room { length (own pass.old.actor pass.old.seen) < 2 ^ 56 }
        requires held { HoldsTouched (S.meaning self.now.scene) pass.old entry.now }
        requires lawful { IsLawfulNext (S.meaning self.now.scene) pass.old entry.now }
        ensures { Commits (S.meaning self.now.scene) pass.old pass.new entry.now result.0 }
    {
        Ticket(steps::commit::<S>(&self.board.shared, &mut pass.seat, entry))
    }

    /// Sees all entries, and tells how many there are.
    pub fn look(&self, pass: &mut Pass<S>) -> u64
        requires stage { IsOf pass.old self.now }
        ensures same { pass.new ≡ having_seen pass.old pass.new.seen }
        ensures more { SeesMore (S.meaning self.now.scene) pass.old pass.new.seen }
        ensures count { result ≡ length pass.new.seen }
    {
        steps::look::<S>(&self.board.shared, &mut pass.seat)
    }

    /// Puts object `i` back, in its state after all that the pass has seen.
    pub fn put(&self, pass: &mut Pass<S>, i: u32, object: S::Object)
        requires stage { IsOf pass.old self.now }
        requires held { has i pass.old.holds ≡ true }
        requires state { S.state object ≡ after (S.meaning self.now.scene) pass.old.seen i }
        ensures { pass.new ≡ having_put pass.old i }
    {
        carried::bring_forward::<S>(&mut pass.seat, &mut pass.held, i);
        steps::give::<S>(&self.board.shared, &mut pass.seat, pass.actor, i, object);
        pass.held.remove(0);
    }

    /// Ends another pass, whose entries the first has then seen.
    pub fn join(&self, first: &mut Pass<S>, other: Pass<S>)
        requires stage { IsOf first.old self.now × IsOf other self.now }
        requires first { first.old.first ≡ true }
        requires empty { other.holds ≡ [] }
        ensures { Joins (S.meaning self.now.scene) first.old other first.new }
    {
        let Pass { seat, .. } = other;
        steps::join::<S>(&self.board.shared, &mut first.seat, seat);
        steps::look::<S>(&self.board.shared, &mut first.seat);
    }
}
