//! What each action does to the objects that it touches, which an actor lends.
#![tactic(auto)]

mod blocks;
mod commands;
mod entries;
mod handing;
mod intakes;
mod nexts;
mod orders;
mod posts;
mod raises;
mod slices;
mod slots;
mod stops;
mod wakes;

pub use blocks::{Blocks, ByNumber, Places};
pub use commands::{await_held, met_held, next_command, poll_held, route_held, unmet_held};
pub use handing::{release_all, replace_all};
pub use intakes::{Pending, raise_for, take_in_held};
pub use nexts::{Next, next_of};
pub use orders::{adopt_held, order_of, release_held, replace_held, start_held, stop_held};
pub use posts::{
    Posting, await_ack, done_held, next_posting, post_held, post_next_held, post_same_held,
    refuse_held,
};
pub use raises::{NextRaise, next_raise, raise_held};
pub use slices::{idle_held, slice_held};
pub use slots::{lift, put_down};
pub use stops::{Stepped, stopped};
pub use wakes::{ChannelWait, channel_of, channel_wait, goes_on, wake_held};
