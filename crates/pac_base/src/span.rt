/// A run of bytes in a text.
#[derive(Clone, Copy, Debug, PartialEq, Eq)]
pub struct Span {
    /// The place of its first byte, counted from 0.
    pub start: u32,
    /// The place of the byte after its last.
    pub end: u32,
}
