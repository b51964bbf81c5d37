//! The rule of the stage, and what each step on its words tells.
use crate::scene::Scene;
use crate::view::View;
use atomic_table::{Join, Play, Seat, Shared, Split, Table, TableRule};
use std::alloc::Global;
use std::marker::{Brand, PhantomData};

/// The words and the slots of a stage.
pub type Board<S> = Table<
    Option<<S as Scene>::Object>,
    View<S, <S as Scene>::Entry>,
    S,
    StageRule,
    Global,
>;

/// The same, as threads share it.
pub type SharedBoard<S> = Shared<
    Option<<S as Scene>::Object>,
    View<S, <S as Scene>::Entry>,
    S,
    StageRule,
>;

/// What a pass steps with.
pub type SeatOf<S> = Seat<Option<<S as Scene>::Object>, View<S, <S as Scene>::Entry>>;

/// What holds between any two steps.
pub struct StageRule;

impl<S: Scene> TableRule<Option<S::Object>, View<S, S::Entry>, S> for StageRule {
    ghost use Rattle.dc_stage.specs.Views.{newcomer};
    ghost use Rattle.dc_stage.specs.Rule.{IsKept};

    ghost holds = { λ scene. IsKept (S.meaning scene) S.state scene };

    ghost first = { λ scene. newcomer scene };
}

/// A try for an object.
pub struct TakePlay;

impl<S: Scene> Play<Option<S::Object>, View<S, S::Entry>> for TakePlay {
    ghost use Rattle.dc_stage.specs.Steps.{took};

    ghost then = { took S.meaning S.state };
}

/// An object goes home.
pub struct GivePlay;

impl<S: Scene> Play<Option<S::Object>, View<S, S::Entry>> for GivePlay {
    ghost use Rattle.dc_stage.specs.Steps.{gave};

    ghost then = { gave };
}

/// A look at the length of the history.
pub struct LookPlay;

impl<S: Scene> Play<Option<S::Object>, View<S, S::Entry>> for LookPlay {
    ghost use Rattle.dc_stage.specs.Steps.{looked};

    ghost then = { looked S.meaning };
}

/// An entry is added, the one that M names.
pub struct CommitPlay<M> {
    marker: PhantomData<M>,
}

impl<S: Scene, M: NamesEntry<S::Entry>> Play<Option<S::Object>, View<S, S::Entry>>
    for CommitPlay<M> {
    ghost use Rattle.dc_stage.specs.Steps.{committed};

    ghost then = { committed S.meaning M.entry };
}

/// The entry that a commit adds. Each call picks it.
pub trait NamesEntry<E> {
    ghost use Rattle.std.specs.Prelude.{Option};

    ghost entry: { Option E };
}

impl<E> NamesEntry<E> for Brand {
    ghost use Rattle.std.specs.Prelude.{None};

    ghost entry = { None };
}

/// The first pass makes another.
pub struct MakePass;

impl<S: Scene> Split<View<S, S::Entry>> for MakePass {
    ghost use Rattle.dc_stage.specs.Views.{making, made_of};

    ghost left = { making };

    ghost right = { made_of };
}

/// A pass is joined to the first, and ends.
pub struct EndPass;

impl<S: Scene> Join<View<S, S::Entry>> for EndPass {
    ghost use Rattle.dc_stage.specs.Views.{taking_in, ended};

    ghost both = { taking_in };

    ghost spent = { ended };
}
