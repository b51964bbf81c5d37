ghost use Rattle.std.specs.Prelude.{◌≡◌, List, IfOk};
ghost use Rattle.dc_base.specs.Histories.{entries_in};
ghost use Rattle.dc_base.specs.declared.entries.Entry.{Entry};
ghost use Rattle.dc_stage.specs.History.{Log};
ghost use Rattle.dc_stage.specs.declared.view.Past.{Past};
ghost use Rattle.dc_logs.specs.Logs.{AreLogs};

use dc_base::entries::Entry;
use dc_base::memory::Memory;
use dc_journal::{Logged, merge};
use std::alloc::Global;

/// The entries of the history of which these are the logs, in its order. An error is want of memory.
pub fn journal_of(alloc: Global, logs: Vec<Vec<Logged>>) -> Result<Vec<Entry>, Memory>
    requires { (history : Log Entry) × (passes : List (Past Entry)) × AreLogs history passes logs.items }
    ensures { IfOk result (λ entries. (history : Log Entry) (passes : List (Past Entry)) → AreLogs history passes logs.items →
        entries.items ≡ entries_in history) }
{
    merge(alloc, logs)
}
