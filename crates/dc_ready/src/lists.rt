ghost use Rattle.std.specs.Prelude.{◌≡◌, ℕ, ◌<◌, List, [], ◌∷◌, ◌++◌, false, is_some, nat_lt, length};
ghost use Rattle.std.specs.Option.{option_map};
ghost use Rattle.dc_base.specs.declared.kernels.Version.{Version};
ghost use Rattle.dc_base.specs.declared.numbers.DispNo.{DispNo};
ghost use Rattle.dc_base.specs.Words.{lists};
ghost use Rattle.dc_base.specs.Policies.{pick as picked};
ghost use Rattle.dc_ready.specs.Entries.{dispatchers, without_disp, entries_of, AreDues, IsReadyList};

use arrayvec::ArrayVec;
use dc_base::kernels::Version;
use dc_base::limits::MOST_DISPS;
use dc_base::numbers::DispNo;

/// The ready dispatchers of a block with their dues in the block's time, each once, in order of arrival. Their numbers are below 16, so there are at most 16.
pub trait ReadyList: Sized + Drop {
    ghost listed: { Self → List (ℕ × ℕ) };
    // whose choice `pick` is
    ghost policy: { Version };

    /// The version of the kernel that picks so.
    fn version() -> Version
        ensures { result ≡ policy };

    /// The list without a dispatcher.
    fn empty() -> Self
        ensures { listed result ≡ [] };

    /// Adds a dispatcher at the end.
    fn add(&mut self, d: DispNo, due: u64)
        requires below { d.0 < 16 }
        requires absent { lists (dispatchers (listed self.old)) d.0 ≡ false }
        ensures { listed self.new ≡ listed self.old ++ (d.0, due) ∷ [] };

    /// The dispatcher that runs next, by any dues that the listed ones agree with. None where the list is empty.
    fn pick(&self) -> Option<DispNo>
        ensures some { is_some result ≡ nat_lt 0 (length (listed self.now)) }
        ensures which { (dues : List ℕ) → AreDues dues (listed self.now) →
            option_map (λ (d : DispNo). d.0) result ≡ picked policy dues (dispatchers (listed self.now)) };

    /// Removes a dispatcher, and says whether it was there.
    fn remove(&mut self, d: DispNo) -> bool
        ensures there { result ≡ lists (dispatchers (listed self.old)) d.0 }
        ensures rest { listed self.new ≡ without_disp d.0 (listed self.old) };

    /// The list.
    fn to_list(&self) -> ArrayVec<(DispNo, u64), MOST_DISPS>
        ensures list { entries_of result.items ≡ listed self.now }
        ensures once { IsReadyList (entries_of result.items) };

    /// What `to_list` gave.
    fn restore(list: &ArrayVec<(DispNo, u64), MOST_DISPS>) -> Self
        requires { IsReadyList (entries_of list.now.items) }
        ensures { listed result ≡ entries_of list.now.items }
    {
        let mut ready = Self::empty();
        for (d, due) in list.as_slice() {
            ready.add(*d, *due);
        }
        ready
    }
}
