use crate::code::Code;
use items::{Offsets, Span, Width};

// A column, and the number after the columns below it. Its texts, bits, offsets and stored bytes are parts of a file: where they
// lie there, in the table of columns, or the bytes themselves.
#[derive(Clone, Copy, Debug, PartialEq, Eq)]
pub struct Column<P, O> {
    pub name: P,
    pub id_text: Option<P>,
    pub code: Code,
    pub len: usize,
    pub validity: Option<P>,
    pub offsets: O,
    pub body: P,
    pub end: usize,
}

// An entry of the table of columns.
pub type ColumnEntry = Column<Span, Offsets>;

impl ColumnEntry {
    // The blank entry: all zero.
    pub const BLANK: ColumnEntry = Column {
        name: NO_BYTES,
        id_text: None,
        code: Code::Boolean,
        len: 0,
        validity: None,
        offsets: NO_OFFSETS,
        body: NO_BYTES,
        end: 0,
    };
}

// No offsets, for a column that has none.
pub(crate) const NO_OFFSETS: Offsets = Offsets {
    width: Width::Four,
    count: 0,
    start: 0,
};

// No bytes, for a column that stores none of its own.
pub(crate) const NO_BYTES: Span = Span { start: 0, len: 0 };
