use crate::blocks::BlockState;
use crate::cores::CoreState;
use crate::mailboxes::Mailbox;
use crate::scripts::ScriptState;
use dc_channel::{Channel, Console};
use dc_kernel::Driver;
use dc_lines::Line;

/// All objects of a machine in their places, those of a kind by number, and each core's mailbox and each block's console.
#[derive(Drop)]
pub struct Objects<D: Driver> {
    pub cores: Vec<CoreState>,
    pub blocks: Vec<BlockState<D>>,
    pub channels: Vec<Channel>,
    pub lines: Vec<Line>,
    pub mailboxes: Vec<Mailbox>,
    pub consoles: Vec<Console>,
    pub script: ScriptState,
}
