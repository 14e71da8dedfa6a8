// What LINKMAP reads and prints: typed lines as commands, and the lines of its answers.
#![tactic(auto)]

mod command;
mod input;
mod row;
#[cfg(test)]
mod tests;

pub use command::{Command, command_of};
pub use input::without_newline;
pub use row::{entry_text, hex6, refused_text, row_text, what_text};
