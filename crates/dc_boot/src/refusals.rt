ghost use Rattle.std.specs.Prelude.{◌≡◌};
ghost use Rattle.dc_base.specs.Words.{first_of};
ghost use Rattle.dc_base.specs.Boot.{refusal, already_on, off, same_version, not_at_rest, home_taken, not_home, not_parked, on_that_core, share_full};

use crate::registry::Registry;
use dc_base::commands::{Command, Refusal};
use dc_base::kernels::Version;
use dc_base::limits::MOST_PARKED;
use dc_base::numbers::{BlockNo, CoreNo};

impl Registry {
    /// The first refusal of the command that applies, in the order of the causes.
    #[tactic(auto, unfolding(dc_base::specs::Boot::refusal))]
    pub(crate) fn refusal(&self, c: &Command) -> Option<Refusal>
        ensures { result ≡ refusal self.now c.now }
    {
        match *c {
            Command::Start(c, _) => self.already_on(c),
            Command::Stop(c) => self.off(c),
            Command::Replace(c, v) => first_of(&[self.off(c), self.same_version(c, v)]),
            Command::Attach(b, c) => first_of(&[
                self.off(c),
                self.not_at_rest(b),
                self.home_taken(c, b),
            ]),
            Command::Move(b, c) => first_of(&[
                self.off(c),
                self.home_taken(c, b),
                self.not_home(b),
                self.on_that_core(b, c),
            ]),
            Command::Park(b, c) => first_of(&[
                self.off(c),
                self.not_home(b),
                self.on_that_core(b, c),
                self.share_full(c),
            ]),
            Command::Unpark(b, c) => first_of(&[
                self.off(c),
                self.home_taken(c, b),
                self.not_parked(b),
            ]),
        }
    }

    fn already_on(&self, c: CoreNo) -> Option<Refusal>
        ensures { result ≡ already_on self.now c }
    {
        self.kernel(c)?;
        Some(Refusal::AlreadyOn { core: c })
    }

    fn off(&self, c: CoreNo) -> Option<Refusal>
        ensures { result ≡ off self.now c }
    {
        match self.kernel(c) {
            Some(_) => None,
            None => Some(Refusal::Off { core: c }),
        }
    }

    fn same_version(&self, c: CoreNo, v: Version) -> Option<Refusal>
        ensures { result ≡ same_version self.now c v }
    {
        let kernel = self.kernel(c)?;
        if kernel.version() != v {
            return None;
        }
        Some(Refusal::SameVersion {
            core: c,
            version: v,
        })
    }

    fn not_at_rest(&self, b: BlockNo) -> Option<Refusal>
        ensures { result ≡ not_at_rest self.now b }
    {
        let core = self.core_of(b)?;
        Some(Refusal::NotAtRest { block: b, core })
    }

    fn home_taken(&self, c: CoreNo, b: BlockNo) -> Option<Refusal>
        ensures { result ≡ home_taken self.now c b }
    {
        let block = self.home_on(c)?;
        if block == b {
            return None;
        }
        Some(Refusal::HomeTaken { core: c, block })
    }

    fn not_home(&self, b: BlockNo) -> Option<Refusal>
        ensures { result ≡ not_home self.now b }
    {
        if self.is_home(b) {
            return None;
        }
        Some(Refusal::NotHome { block: b })
    }

    fn not_parked(&self, b: BlockNo) -> Option<Refusal>
        ensures { result ≡ not_parked self.now b }
    {
        if self.is_parked(b) {
            return None;
        }
        Some(Refusal::NotParked { block: b })
    }

    fn on_that_core(&self, b: BlockNo, c: CoreNo) -> Option<Refusal>
        ensures { result ≡ on_that_core self.now b c }
    {
        let core = self.core_of(b)?;
        if core != c {
            return None;
        }
        Some(Refusal::OnThatCore { block: b, core: c })
    }

    fn share_full(&self, c: CoreNo) -> Option<Refusal>
        ensures { result ≡ share_full self.now c }
    {
        if self.parked_on(c) < MOST_PARKED as u32 {
            return None;
        }
        Some(Refusal::ShareFull { core: c })
    }
}

fn first_of(causes: &[Option<Refusal>]) -> Option<Refusal>
    ensures { result ≡ first_of causes.now }
{
    for cause in causes {
        if cause.is_some() {
            return *cause;
        }
    }
    None
}
