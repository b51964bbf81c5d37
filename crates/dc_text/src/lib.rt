//! Lines of texts: the words and numbers in them, and lines made of words and numbers.
#![tactic(auto)]

mod lines;
mod lists;
mod reading;
mod scan;

pub use lines::{Line, push_number, push_u32, push_u64, push_word};
pub use lists::{Numbered, push_list};
pub use reading::{number, word_in, words};
pub use scan::{first_line, place_of_byte};
