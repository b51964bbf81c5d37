//! How many objects a state has.
ghost use Rattle.std.specs.Prelude.{◌≡◌, ◌+◌, ◌≤◌, length};
ghost use Rattle.dc_base.specs.Bounded.{AreLimited};
ghost use Rattle.dc_base.specs.Objects.{objects, HasSizes};
ghost use Rattle.dc_base.specs.States.{State, Settings};

/// All objects are those of each kind and the script. In a state of the sizes that the settings say they are as many as these say, and at most 1,024 where
/// the settings are within the limits.
pub fn objects_are_counted()
    ensures kinds { (s : State) → length (objects s) ≡ length s.cores + length s.blocks + length s.channels + length s.lines + length s.mailboxes +
        length s.consoles + 1 }
    ensures sizes { (t : Settings) (s : State) → HasSizes t s → length (objects s) ≡ t.cores + t.blocks + t.channels + t.lines + t.cores + t.blocks + 1 }
    ensures few { (t : Settings) (s : State) → HasSizes t s → AreLimited t → length (objects s) ≤ 1024 }
{}
