//! The outside of the taximeter: the files that a program's words name, and the board, which has a store and prints.
//! Each is a trait, with a device of the system. `QuietBoard` is a board in memory. All of it is this project's own.
#![tactic(auto)]

mod board;
mod failures;
mod fault;
mod file_device;
mod file_store;
mod files;
mod folder;
mod heard;
mod held_file;
mod host_files;
mod image;
mod list_laws;
mod named_file;
mod new_store;
mod outputs;
mod printer;
mod printing;
mod program;
mod quiet_board;
mod retried;
mod run_laws;
mod second_name;
mod store_file;
mod store_names;
mod text;
mod written_again;

pub use board::{Board, LOG_SIZE, STORE_SIZE};
pub use fault::Failed;
pub use file_device::{FileBoard, FileDevice, FileLog};
pub use files::Files;
pub use heard::{Act, Failure, Heard, SEALS_SIZE};
pub use held_file::HeldFile;
pub use host_files::HostFiles;
pub use list_laws::{Places, a_slice_of_bytes, a_slice_that_is_not_touched, what_begins_a_text};
pub use outputs::outputs_are_apart;
pub use printer::Printer;
pub use program::program_words;
pub use quiet_board::QuietBoard;
pub use run_laws::{
    Kind, a_kept_store_is_left, a_print_is_a_run, a_run_after_another, a_run_that_calls_nothing,
    a_wider_kind,
};
pub use store_names::StoreNames;
pub use text::{RoomFault, TextFault, read_text, read_whole};
