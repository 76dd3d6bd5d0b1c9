//! Why a text was not put whole.

/// Why a call that makes a text and puts it to a sink was cut short.
#[derive(Clone, Copy, Debug, PartialEq, Eq)]
pub enum WriteErr {
    NoMemory,
    /// A put to the sink failed in this call.
    Failed,
}
