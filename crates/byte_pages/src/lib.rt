//! Byte arrays of a fixed length, whose memory is taken by pages. Contracts see lists of bytes.
#![tactic(auto)]

mod late_pages;
mod no_page;
mod page;
mod pages;

pub use no_page::NoPage;
pub use pages::Pages;
