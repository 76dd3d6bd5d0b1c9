//! The generated load: guests in a ring that send frames to each other, with their images.
#![tactic(auto)]

mod buffers;
mod code;
mod experiment;
mod filled;
mod frames;
mod gen_err;
mod image;
mod law;
mod load;
mod make;
mod pairs;
mod queue;
mod table;

pub use gen_err::GenErr;
pub use law::loads_are_right;
pub use load::Load;
pub use make::generate;
