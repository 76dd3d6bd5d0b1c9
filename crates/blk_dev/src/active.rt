//! A queue that is ready.

use crate::flight::Flight;
use split_queue::SplitQueue;
use std::collections::VecDeque;

/// A queue that is ready, and the requests in flight that came from it, in the order of their admission.
#[derive(Drop)]
pub(crate) struct Active {
    pub(crate) queue: SplitQueue,
    pub(crate) flying: VecDeque<Flight>,
}
