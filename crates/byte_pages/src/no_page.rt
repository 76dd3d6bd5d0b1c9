//! Want of memory for pages.

/// There was no memory for the pages.
#[derive(Clone, Copy, Debug, PartialEq, Eq)]
pub struct NoPage;
