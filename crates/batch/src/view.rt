use items::Width;

// A field of a batch in hand, and the number that comes after the fields below it.
pub type Field<'a> = schema::Field<&'a [u8]>;

// Offsets as they are stored: each has so many bytes, low byte first.
#[derive(Clone, Copy, Debug, PartialEq, Eq)]
pub struct OffsetBuffer<'a> {
    pub width: Width,
    pub bytes: &'a [u8],
}

// A column of a batch in hand, and the number that comes after the columns below it.
pub type Column<'a> = columns::Column<&'a [u8], OffsetBuffer<'a>>;
