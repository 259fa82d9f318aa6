// How documents are shown.

/// What is shown of a document. By default octets are cut off after some, and documents inside octets are shown, blocks
/// of any depth.
#[derive(Clone, Copy, Debug, Default, Drop, PartialEq)]
pub struct Style {
    /// Values are written whole.
    pub is_full: bool,
    /// Nested DER is not expanded.
    pub is_flat: bool,
    /// The most blocks that may be around a block that is shown; an outermost one has none. `None` where all are shown.
    /// Octets that are no document are shown as deep as they can be read.
    pub most_depth: Option<usize>,
    /// Fields have no names.
    pub is_plain: bool,
}
