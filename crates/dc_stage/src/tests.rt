//! Two numbers on a stage, counted up by two actors in turn and by two threads.
ghost use Rattle.std.specs.Prelude.{◌≡◌, ℕ, ◌+◌, ◌^◌, ◌<◌, ◌≤◌, true, false, length, [], ◌∷◌};
ghost use Rattle.dc_stage.specs.Numbers.{has};
ghost use Rattle.dc_stage.specs.History.{own, after};
ghost use Rattle.dc_stage.specs.Passes.{IsOf, IsAlone, having_seen, having_taken, having_put, first_of};
ghost use Rattle.dc_stage.specs.Calls.{SeesMore, Commits};
ghost use Rattle.dc_stage.specs.Tally.{tally};
ghost use Rattle.dc_stage.specs.declared.tests.tally.Add.{Add};

mod crossing;
mod tally;

use crate::{Closed, Pass, Stage, StageMemory, Taken, Ticket};
use std::alloc::Global;
use std::process::Abort;
use std::test::Fail;
use std::thread::{self, Threads};
use tally::{Add, Tally};

/// A stage of two numbers that are 0, for two actors. Where there is no memory the numbers come back.
fn open<R: Abort>(rt: &R, alloc: Global, numbers: Vec<u64>) -> (Stage<Tally>, Pass<Tally>)
    requires { numbers.items ≡ 0 ∷ 0 ∷ [] }
    ensures { (result.0.objects ≡ 2) × (result.0.actors ≡ 2) × (result.1 ≡ first_of result.0) }
{
    match Stage::open(alloc, Tally, numbers, 2) {
        Ok(opened) => opened,
        Err(StageMemory { objects, scene: _ }) => {
            assert!(rt; objects.as_slice() == [0, 0].as_slice());
            panic!(rt; "no memory, and the numbers came back")
        }
    }
}

/// Takes a number that no other pass has.
fn take<R: Abort>(rt: &R, stage: &Stage<Tally>, pass: &mut Pass<Tally>, i: u32) -> u64
    requires stage { IsOf pass.old stage.now }
    requires object { i < stage.now.objects }
    requires free { has i pass.old.holds ≡ false }
    ensures same { pass.new ≡ having_taken pass.old i pass.new.seen }
    ensures more { SeesMore (tally (λ (e : Add). e.0)) pass.old pass.new.seen }
    ensures number { result ≡ after (tally (λ (e : Add). e.0)) pass.new.seen i }
{
    let Taken::Got(number) = stage.try_take(pass, i) else {
        panic!(rt; "the number was not at home")
    };
    number
}

/// Commits that one is added to a number that the pass holds.
fn add(stage: &Stage<Tally>, pass: &mut Pass<Tally>, i: u32) -> Ticket
    requires stage { IsOf pass.old stage.now }
    requires room { length (own pass.old.actor pass.old.seen) < 2 ^ 56 }
    requires held { (i < 2) × (has i pass.old.holds ≡ true) }
    ensures commits { Commits (tally (λ (e : Add). e.0)) pass.old pass.new (record { 0 = i }) result.0 }
    ensures one_more { after (tally (λ (e : Add). e.0)) pass.new.seen i ≡ after (tally (λ (e : Add). e.0)) pass.old.seen i + 1 }
{
    stage.commit(pass, &Add(i))
}

fn one_more<R: Abort>(rt: &R, number: u64) -> u64
    ensures { result ≡ number + 1 }
{
    number.checked_add(1).expect(rt, "the number is small")
}

/// Takes a number and puts it back. No pass can have it.
fn visit(stage: &Stage<Tally>, pass: &mut Pass<Tally>, i: u32)
    requires stage { IsOf pass.old stage.now }
    requires object { i < stage.now.objects }
    requires alone { IsAlone pass.old }
    requires empty { pass.old.holds ≡ [] }
    ensures { pass.new ≡ having_put (having_taken pass.old i pass.new.seen) i }
{
    let Taken::Got(number) = stage.try_take(pass, i) else {
        unreachable!()
    };
    stage.put(pass, i, number);
}

/// Joins the second pass to the first, visits both numbers, and closes the stage.
fn end(stage: Stage<Tally>, mut first: Pass<Tally>, second: Pass<Tally>) -> Vec<u64>
    requires stage { IsOf first stage × IsOf second stage × (stage.objects ≡ 2) }
    requires first { (first.first ≡ true) × (first.made ≡ 2) × (first.joined ≡ []) }
    requires empty { (first.holds ≡ []) × (second.holds ≡ []) }
    ensures { length result.items ≡ 2 }
{
    stage.join(&mut first, second);
    visit(&stage, &mut first, 0);
    visit(&stage, &mut first, 1);
    let Closed { objects, scene: _ } = stage.close(first);
    objects
}

#[test]
fn two_actors_in_turn(rt: HostRuntime) -> Result<(), Fail> {
    let numbers = vec![in rt.alloc(); 0u64, 0]?;
    let (stage, mut first) = open(&rt, rt.alloc(), numbers);
    let mut second = stage.split(&mut first);
    assert!(rt; first.actor() == 0 && second.actor() == 1);
    let Tally = stage.scene();
    let zero = take(&rt, &stage, &mut first, 0);
    assert!(rt; add(&stage, &mut first, 0) == Ticket(0));
    let Taken::Busy { by } = stage.try_take(&mut second, 0) else {
        panic!(rt; "the number was at home")
    };
    assert!(rt; by == 0);
    let one = take(&rt, &stage, &mut second, 1);
    assert!(rt; add(&stage, &mut second, 1) == Ticket(1));
    assert!(rt; stage.look(&mut first) == 2);
    stage.put(&mut first, 0, one_more(&rt, zero));
    stage.put(&mut second, 1, one_more(&rt, one));
    let objects = end(stage, first, second);
    assert!(rt; objects.as_slice() == [1, 1].as_slice());
    Ok(())
}

/// Takes a number, adds one to it for each place of the list, writes the tickets there, and puts the number back.
fn count_up<R: Abort>(
    rt: &R,
    stage: &Stage<Tally>,
    mut pass: Pass<Tally>,
    i: u32,
    tickets: &mut [u64],
) -> Pass<Tally>
    requires stage { IsOf pass stage.now }
    requires number { (i < 2) × (stage.now.objects ≡ 2) }
    requires empty { pass.holds ≡ [] }
    requires room { (length (own pass.actor pass.seen) ≡ 0) × (length tickets.old ≤ 10000) }
    ensures { (seen : _) × (took : _) × (result ≡ record pass { seen = seen; took = took }) }
{
    let mut number = take(rt, stage, &mut pass, i);
    for ticket in tickets.iter_mut() {
        *ticket = add(stage, &mut pass, i).0;
        number = one_more(rt, number);
    }
    stage.put(&mut pass, i, number);
    pass
}

#[test]
fn two_threads_count_up(rt: HostRuntime) -> Result<(), Fail> {
    let numbers = vec![in rt.alloc(); 0u64, 0]?;
    let (stage, mut first) = open(&rt, rt.alloc(), numbers);
    let second = stage.split(&mut first);
    let mut tickets = vec![in rt.alloc(); 0u64; 20_000]?;
    let (ours, theirs) = tickets.split_at_mut(10_000);
    let (first, second) = thread::join(
        &rt,
        || -> Pass<Tally>
            requires { IsOf first stage × (first.holds ≡ [])
                × (length (own first.actor first.seen) ≡ 0)
                × (stage.objects ≡ 2) × (length ours.now ≤ 10000) }
            ensures { (seen : _) × (took : _) × (result ≡ record first { seen = seen; took = took }) }
        { count_up(&rt, &stage, first, 0, ours) },
        || -> Pass<Tally>
            requires { IsOf second stage × (second.holds ≡ [])
                × (length (own second.actor second.seen) ≡ 0)
                × (stage.objects ≡ 2) × (length theirs.now ≤ 10000) }
            ensures { (seen : _) × (took : _) × (result ≡ record second { seen = seen; took = took }) }
        { count_up(&rt, &stage, second, 1, theirs) },
    );
    let ascend = ours.is_sorted() && theirs.is_sorted();
    let objects = end(stage, first, second);
    tickets.sort_unstable();
    let each_once = tickets
        .iter()
        .enumerate()
        .all(|(at, ticket)| *ticket == at as u64);
    assert!(rt; ascend && each_once);
    assert!(rt; objects.as_slice() == [10_000, 10_000].as_slice());
    Ok(())
}
