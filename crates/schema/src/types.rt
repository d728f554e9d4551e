use items::Span;

// The types that hold no others.
#[derive(Clone, Copy, Debug, PartialEq, Eq)]
pub enum Primitive {
    Boolean,
    Int,
    Long,
    Float,
    Double,
    Date,
    Time,
    Timestamp,
    Timestamptz,
    TimestampNs,
    TimestamptzNs,
    String,
    Uuid,
    Fixed(u32),
    Binary,
}

// A field's type, without the fields that it holds.
#[derive(Clone, Copy, Debug, PartialEq, Eq)]
pub enum Kind {
    Primitive(Primitive),
    Struct,
    List,
    Map,
}

// A field, and the number after the fields below it. Its name is a part of a file: where it lies there, in the table of
// fields, or the bytes themselves.
#[derive(Clone, Copy, Debug, PartialEq, Eq)]
pub struct Field<P> {
    pub id: i32,
    pub required: bool,
    pub name: P,
    pub kind: Kind,
    pub end: usize,
}

// An entry of the table of fields.
pub type FieldEntry = Field<Span>;

impl FieldEntry {
    // The blank entry: all zero.
    pub const BLANK: FieldEntry = Field {
        id: 0,
        required: false,
        name: Span { start: 0, len: 0 },
        kind: Kind::Primitive(Primitive::Boolean),
        end: 0,
    };
}
