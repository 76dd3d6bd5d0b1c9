//! The top call: from a command's words to its lines and its status.
#![tactic(auto)]

mod experiment_file;
mod fault_words;
mod law;
mod placing;
mod report;
mod status;
mod tasks;
mod top;

pub use bench_build::Stock;
pub use law::experiments_are_given;
pub use open_images::FileId;
pub use run_views::traces_do_not_depend_on_slots;
pub use status::Status;
pub use top::diecast;
pub use words_line::WordFault;
