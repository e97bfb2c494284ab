//! A board and files in memory, which tell what they hold and of which chosen calls fail. Neither program needs them.
//! All of it is this project's own.
#![tactic(auto)]

mod kept_call;
mod memory_device;
mod memory_file;
mod memory_files;
mod memory_state;
mod replay;

pub use memory_device::{MemoryBoard, MemoryDevice, MemoryLog};
pub use memory_files::MemoryFiles;
pub use replay::Fill;
