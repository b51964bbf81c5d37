ghost use Rattle.std.specs.Prelude.{◌≡◌, ◌↔◌, ◌<◌, ◌≤◌, [], ◌∷◌, ◌++◌, Bool, true, false, None, Some, IsOk, IfOk, IfErr, length, map, slice_get, slice_set};
ghost use Rattle.std.specs.Option.{option_map};
ghost use Rattle.dc_base.specs.declared.commands.Order.TheVariants as order;
ghost use Rattle.dc_base.specs.Boot.{boot_start, home_from, booted_at, core_of, home_on, parked_on, is_home, is_parked, refusal, orders, to_its_core};
ghost use Rattle.dc_base.specs.Boot.{after_order, after_orders, none_on};
ghost use Rattle.dc_boot.specs.Views.{place_of, home_of};
ghost use Rattle.dc_boot.specs.Registries.{plan_orders, posted, FindsRoom};

use crate::kernel::Kernel;
use crate::place::Place;
use crate::plan::Plan;
use crate::start::{cores_of, places_of};
use arrayvec::ArrayVec;
use dc_base::commands::{Command, Order, Refusal};
use dc_base::images::Image;
use dc_base::kernels::Version;
use dc_base::numbers::{BlockNo, CoreNo};
use std::marker::Model;

/// Which cores are on, at most 8, and where the blocks are, at most 16.
#[derive(Debug, Drop)]
pub struct Registry {
    cores: ArrayVec<Option<Kernel>, 8>,
    places: ArrayVec<Place, 16>,
}

// Contracts see the boot state of the machine with cores.
impl Model for Registry {
    ghost use Rattle.dc_base.specs.Boot.{Registry as BootState};

    ghost Value = { BootState };

    ghost view = { λ r. record { cores = r.cores.items; places = r.places.items } };
}

impl Registry {
    /// The boot state at the start of the machine of an image of at most 8 cores and at most 16 blocks.
    #[tactic(auto, unfolding(dc_base::specs::Boot::boot_start))]
    pub fn of(image: &Image) -> Registry
        requires cores { length image.now.cores ≤ 8 }
        requires blocks { length image.now.blocks ≤ 16 }
        ensures { result ≡ boot_start image.now }
    {
        let blocks = image.blocks.as_slice();
        Registry {
            cores: cores_of(image.cores.as_slice(), blocks),
            places: places_of(blocks),
        }
    }

    /// The orders of a command, or the first cause for which it is refused.
    pub fn decide(&self, c: &Command) -> Result<Plan, Refusal>
        ensures accepted { IsOk result ↔ (refusal self.now c.now ≡ None) }
        ensures plan { IfOk result (λ p. plan_orders p ≡ orders self.now c.now) }
        ensures refused { IfErr result (λ e. refusal self.now c.now ≡ Some e) }
    {
        match self.refusal(c) {
            Some(refusal) => Err(refusal),
            None => Ok(self.orders(c)),
        }
    }

    /// Takes the registry to the boot state after the orders of a command that is not refused.
    pub fn finish(&mut self, c: &Command)
        requires { refusal self.old c.now ≡ None }
        ensures { self.new ≡ after_orders self.old (orders self.old c.now) }
    {
        let plan = self.orders(c);
        self.carry(plan.first.0, plan.first.1);
        if let Some((core, order)) = plan.second {
            self.carry(core, order);
        }
    }

    /// Gives a core that is on another version of the kernel.
    #[tactic(auto, using(crate::proofs::After::past_end))]
    pub fn set_version(&mut self, c: CoreNo, v: Version)
        ensures { self.new ≡ after_order self.old c.0 (order.Replace v) }
    {
        let at = c.0 as usize;
        if at < self.cores.len() {
            if let Some(kernel) = &mut self.cores[at] {
                kernel.replace(v);
            }
        }
    }

    #[tactic(auto, unfolding(dc_base::specs::Boot::orders))]
    fn orders(&self, c: &Command) -> Plan
        ensures { plan_orders result ≡ orders self.now c.now }
    {
        match *c {
            Command::Start(c, v) => only(c, Order::Start(v)),
            Command::Stop(c) => only(c, Order::Stop),
            Command::Replace(c, v) => only(c, Order::Replace(v)),
            Command::Attach(block, c) => only(
                c,
                Order::Adopt {
                    block,
                    parked: false,
                },
            ),
            Command::Move(b, c) => self.handover(b, c, false),
            Command::Park(b, c) => self.handover(b, c, true),
            Command::Unpark(b, c) => self.handover(b, c, false),
        }
    }

    fn handover(&self, b: BlockNo, c: CoreNo, parked: bool) -> Plan
        ensures { plan_orders result ≡ to_its_core self.now b ++ (c.0, order.Adopt b parked) ∷ [] }
    {
        let adopt = Order::Adopt { block: b, parked };
        match self.core_of(b) {
            Some(from) => Plan {
                first: (from, Order::Release(b)),
                second: Some((c, adopt)),
            },
            None => only(c, adopt),
        }
    }

    fn carry(&mut self, c: CoreNo, o: Order)
        requires room { FindsRoom self.old c.0 o }
        ensures { self.new ≡ after_order self.old c.0 o }
    {
        match o {
            Order::Start(v) => self.start(c, v),
            Order::Stop => self.stop(c),
            Order::Replace(v) => self.set_version(c, v),
            Order::Adopt { block, parked } => self.adopt(c, block, parked),
            Order::Release(block) => self.release(c, block),
        }
    }

    #[tactic(auto, using(crate::proofs::After::past_end, crate::proofs::After::kept_on))]
    fn start(&mut self, c: CoreNo, v: Version)
        ensures { self.new ≡ after_order self.old c.0 (order.Start v) }
    {
        let at = c.0 as usize;
        if at < self.cores.len() && self.cores[at].is_none() {
            self.cores[at] = Some(Kernel::start(v, None));
        }
    }

    #[tactic(auto, using(crate::proofs::After::past_end, crate::proofs::After::kept_off))]
    fn stop(&mut self, c: CoreNo)
        ensures { self.new ≡ after_order self.old c.0 order.Stop }
    {
        let at = c.0 as usize;
        if at < self.cores.len() && self.cores[at].is_some() {
            self.cores[at] = None;
            leave(self.places.as_mut_slice(), c);
        }
    }

    #[tactic(auto, using(crate::proofs::After::past_end))]
    fn adopt(&mut self, c: CoreNo, b: BlockNo, parked: bool)
        requires room { parked ≡ true → length (parked_on self.old c.0) < 8 }
        ensures { self.new ≡ after_order self.old c.0 (order.Adopt b parked) }
    {
        let at = c.0 as usize;
        if at < self.cores.len() {
            if let Some(kernel) = &mut self.cores[at] {
                kernel.adopt(b, parked);
                self.set_place(b, Some(c));
            }
        }
    }

    #[tactic(auto, using(crate::proofs::After::past_end))]
    fn release(&mut self, c: CoreNo, b: BlockNo)
        ensures { self.new ≡ after_order self.old c.0 (order.Release b) }
    {
        let at = c.0 as usize;
        if at < self.cores.len() {
            if let Some(kernel) = &mut self.cores[at] {
                kernel.release(b);
                self.set_place(b, None);
            }
        }
    }

    fn set_place(&mut self, b: BlockNo, core: Option<CoreNo>)
        ensures { self.new ≡ record self.old { places = slice_set self.old.places b.0 (place_of core) } }
    {
        let at = b.0 as usize;
        if at < self.places.len() {
            self.places[at] = Place::at(core);
        }
    }

    /// The kernel of a core that is on.
    pub fn kernel(&self, c: CoreNo) -> Option<&Kernel>
        ensures { option_map (λ k. k.now) result ≡ booted_at self.now c.0 }
    {
        match self.cores.get(c.0 as usize) {
            Some(Some(kernel)) => Some(kernel),
            _ => None,
        }
    }

    /// The core of a block, if it has one.
    pub fn core_of(&self, b: BlockNo) -> Option<CoreNo>
        ensures { place_of result ≡ core_of self.now b.0 }
    {
        self.places.get(b.0 as usize)?.core()
    }

    /// The home block of a core, if it has one.
    pub fn home_on(&self, c: CoreNo) -> Option<BlockNo>
        ensures { home_of result ≡ home_on self.now c.0 }
    {
        self.kernel(c)?.home()
    }

    /// How many blocks are parked on a core, at most 8.
    pub fn parked_on(&self, c: CoreNo) -> u32
        ensures value { result ≡ length (parked_on self.now c.0) }
        ensures most { length (parked_on self.now c.0) ≤ 8 }
    {
        match self.kernel(c) {
            Some(kernel) => kernel.parked().len(),
            None => 0,
        }
    }

    /// Whether a block is home on its core.
    pub fn is_home(&self, b: BlockNo) -> bool
        ensures { result ≡ is_home self.now b.0 }
    {
        match self.core_of(b) {
            Some(core) => self.home_on(core) == Some(b),
            None => false,
        }
    }

    /// Whether a block is parked on its core.
    pub fn is_parked(&self, b: BlockNo) -> bool
        ensures { result ≡ is_parked self.now b.0 }
    {
        let Some(core) = self.core_of(b) else {
            return false;
        };
        match self.kernel(core) {
            Some(kernel) => kernel.parked().contains(b),
            None => false,
        }
    }

    /// How many cores there are, at most 8.
    pub fn cores(&self) -> u32
        ensures value { result ≡ length self.now.cores }
        ensures most { length self.now.cores ≤ 8 }
    {
        self.cores.len() as u32
    }

    /// How many blocks there are, at most 16.
    pub fn blocks(&self) -> u32
        ensures value { result ≡ length self.now.places }
        ensures most { length self.now.places ≤ 16 }
    {
        self.places.len() as u32
    }
}

fn only(core: CoreNo, order: Order) -> Plan
    ensures { plan_orders result ≡ (core.0, order) ∷ [] }
{
    Plan {
        first: (core, order),
        second: None,
    }
}

/// Puts the blocks of a core to rest.
fn leave(places: &mut [Place], c: CoreNo)
    ensures { places.new ≡ map (none_on c.0) places.old }
{
    for at in 0..places.len() {
        places[at] = places[at].after_stop(c);
    }
}
