//! The capabilities that an image gives a block.

ghost use Rattle.std.specs.Prelude.{◌≡◌, ◌<◌, ◌≤◌, length};
ghost use Rattle.dc_base.specs.declared.images.DispImage.{DispImage};
ghost use Rattle.dc_base.specs.Words.{Each};
ghost use Rattle.dc_base.specs.Parts.{with_seats, seats_from};
ghost use Rattle.dc_kcb.specs.Starts.{AreSeatable, IsUnseated};

use dc_base::images::{CapImage, DispImage};
use dc_base::numbers::DispNo;
use dc_caps::Table;

/// Puts the capabilities of dispatcher `d` into its slots, as roots, the last first.
fn seat_caps(table: &mut Table, d: DispNo, caps: &[CapImage])
    requires disp { d.0 < table.old.disps }
    requires caps { AreSeatable caps.now }
    requires free { IsUnseated d.0 table.old.set }
    ensures { table.new ≡ record table.old { set = with_seats d.0 caps.now table.old.set } }
{
    for k in (0..caps.len()).rev() {
        let given = caps[k];
        let _ = table.seat(d, given.slot, given.cap);
    }
}

/// The capabilities of all dispatchers as roots, those of the last dispatcher first.
pub(crate) fn seated(disps: &[DispImage]) -> Table
    requires some { 0 < length disps.now }
    requires most { length disps.now ≤ 16 }
    requires caps { Each disps.now (λ d (i : DispImage). AreSeatable i.caps) }
    ensures { result ≡ record { set = seats_from 0 disps.now; disps = length disps.now } }
{
    let mut table = Table::new(disps.len() as u32);
    for d in (0..disps.len()).rev() {
        seat_caps(&mut table, DispNo(d as u32), disps[d].caps.as_slice());
    }
    table
}
