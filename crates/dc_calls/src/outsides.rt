use dc_channel::{Channel, Console};
use dc_lines::Line;

/// The object outside its block that a kernel call needs. Nothing where none is needed, and for a line that does not exist.
#[derive(Drop)]
pub enum Outside {
    Nothing,
    Channel(Channel),
    Line(Line),
    Console(Console),
}
