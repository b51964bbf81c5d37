ghost use Rattle.std.specs.Prelude.{◌≡◌, Bool, true, false, Option, Some, None};
ghost use Rattle.dc_base.specs.States.{empty, ack};
ghost use Rattle.dc_base.specs.States.{order as ordered};
ghost use Rattle.dc_objects.specs.Mailboxes.{order_in, is_ack};

use dc_base::commands::Order;
use std::marker::Model;

/// What a mailbox holds: nothing, an order that waits, or that it was carried out.
#[derive(Clone, Copy, Debug)]
enum Letter {
    Nothing,
    Order(Order),
    Ack,
}

/// The mailbox of a core: empty, an order that waits, or Ack once it was carried out.
#[derive(Clone, Copy, Debug)]
pub struct Mailbox {
    letter: Letter,
}

// Contracts see a mailbox of the machine with cores.
impl Model for Mailbox {
    ghost use Rattle.dc_base.specs.States.{Mailbox as Letters};
    ghost use Rattle.dc_objects.specs.Mailboxes.{letter_seen, letter_of};

    ghost Value = { Letters };

    ghost view = { λ m. letter_seen m.letter };

    ghost inverse = { λ m. record { letter = letter_of m } };
}

impl Mailbox {
    pub fn empty() -> Mailbox
        ensures { result ≡ empty }
    {
        Mailbox {
            letter: Letter::Nothing,
        }
    }

    /// A mailbox with an order that waits.
    pub fn holding(o: Order) -> Mailbox
        ensures { result ≡ ordered o }
    {
        Mailbox {
            letter: Letter::Order(o),
        }
    }

    pub fn ack() -> Mailbox
        ensures { result ≡ ack }
    {
        Mailbox {
            letter: Letter::Ack,
        }
    }

    /// The order that waits, if one does.
    pub fn order(&self) -> Option<Order>
        ensures { result ≡ order_in self.now }
    {
        match self.letter {
            Letter::Order(o) => Some(o),
            _ => None,
        }
    }

    /// Whether the last order was carried out.
    pub fn is_ack(&self) -> bool
        ensures { result ≡ is_ack self.now }
    {
        match self.letter {
            Letter::Ack => true,
            _ => false,
        }
    }
}
