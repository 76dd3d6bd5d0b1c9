//! What a text has to be.

/// The kinds of text that a file has.
#[derive(Clone, Copy)]
pub enum Form {
    /// 1 to 32 bytes of a-z, 0-9, `_` and `-`.
    GuestName,
    /// 1 to 255 bytes, none of them zero.
    ImageName,
    /// `elf` or `flat`.
    ImageKind,
    AnyText,
}
