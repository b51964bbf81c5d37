ghost use Rattle.std.specs.Prelude.{◌≡◌};

use dc_base::actions::Actor;
use dc_base::entries::{Entry, What};
use dc_base::numbers::{CoreNo, Ticket};
use dc_journal::{Logged, merge};
use std::test::Fail;

/// A core stops, and puts as many blocks to rest.
fn stop(core: u32, released: u32) -> Entry {
    Entry {
        actor: Actor::Core(CoreNo(core)),
        what: What::Stop { released },
    }
}

fn done(place: u32) -> Entry {
    Entry {
        actor: Actor::Script,
        what: What::Done { place },
    }
}

fn logged(ticket: u64, entry: Entry) -> Logged
    ensures { result.ticket.0 ≡ ticket }
{
    Logged {
        ticket: Ticket(ticket),
        entry,
    }
}

#[test]
fn logs_become_one_history(rt: HostRuntime) -> Result<(), Fail> {
    let alloc = rt.alloc();
    let core = vec![in alloc; logged(1, stop(3, 7)), logged(3, stop(3, 8))]?;
    let idle = Vec::new(alloc);
    let script = vec![in alloc; logged(0, done(5)), logged(2, done(6)), logged(4, done(9))]?;
    let entries = merge(alloc, vec![in alloc; core, idle, script]?)?;
    let history = [done(5), stop(3, 7), done(6), stop(3, 8), done(9)];
    assert!(rt; entries.as_slice() == history.as_slice());
    Ok(())
}

#[test]
fn without_logs_there_is_no_history(rt: HostRuntime) -> Result<(), Fail> {
    let alloc = rt.alloc();
    let entries = merge(alloc, Vec::new(alloc))?;
    assert!(rt; entries.is_empty());
    Ok(())
}
