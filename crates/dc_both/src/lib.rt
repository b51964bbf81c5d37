//! The two kernels as one driver: a machine has kernels of both versions.
#![tactic(auto)]

ghost use Rattle.std.specs.Prelude.{◌≡◌, true};
ghost use Rattle.dc_base.specs.declared.kernels.Version.TheVariants.{Rr, Edf};

use dc_edf::EdfDriver;
use dc_kernel::{Both, Driver};
use dc_rr::RrDriver;

/// A kernel of either version.
pub type EitherKernel = Both<RrDriver, EdfDriver>;

/// It serves both versions.
pub fn both_are_served()
    ensures rr { ⟦<EitherKernel as Driver>⟧.served Rr ≡ true }
    ensures edf { ⟦<EitherKernel as Driver>⟧.served Edf ≡ true }
{}
