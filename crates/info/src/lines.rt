// The lines of fields and columns.
ghost use Rattle.std.specs.Prelude.{◌≡◌, Some};
ghost use Rattle.info.specs.Lines.{id_text, required_text, field_line, column_line};
ghost use Rattle.batch.specs.Views.{column_of, field_of, maybe_part_of};

use crate::nulls::count_nulls;
use crate::quoted::Quoted;
use batch::{Column, Field};
use std::fmt;

// A field or a column with its number and its level.
#[derive(Clone, Copy)]
pub(crate) struct Line<T> {
    pub(crate) level: usize,
    pub(crate) number: usize,
    pub(crate) entry: T,
}

impl<T> Line<T> {
    pub(crate) fn new(level: usize, number: usize, entry: T) -> Self
        ensures { result ≡ record { level = level; number = number; entry = entry } }
    {
        Line {
            level,
            number,
            entry,
        }
    }
}

// A column's id text, or `none`.
#[derive(Clone, Copy)]
struct IdText<'a>(Option<&'a [u8]>);

// As `field 1 level 1 id 4 optional name "d" double`.
impl fmt::Display for Line<Field<'_>> {
    ghost output = { λ l. Some (field_line l.level l.number (field_of l.entry)) };

    fn fmt<W: fmt::Write>(&self, f: &mut fmt::Formatter<W>) -> fmt::Result {
        let Line { level, number, .. } = *self;
        let id = self.entry.id;
        let presence = presence(self.entry.required);
        let name = Quoted(self.entry.name);
        let kind = self.entry.kind;
        write!(
            f,
            "field {number} level {level} id {id} {presence} name {name} {kind}"
        )
    }
}

// As `column 1 level 1 name "d" id "4" float64 length 2 nulls 1`.
impl fmt::Display for Line<Column<'_>> {
    ghost output = { λ l. Some (column_line l.level l.number (column_of l.entry)) };

    fn fmt<W: fmt::Write>(&self, f: &mut fmt::Formatter<W>) -> fmt::Result {
        let Line { level, number, .. } = *self;
        let name = Quoted(self.entry.name);
        let id = IdText(self.entry.id_text);
        let code = self.entry.code;
        let length = self.entry.len;
        let nulls = count_nulls(self.entry);
        write!(
            f,
            "column {number} level {level} name {name} id {id} {code} length {length} nulls {nulls}"
        )
    }
}

impl fmt::Display for IdText<'_> {
    ghost output = { λ t. Some (id_text (maybe_part_of t.0)) };

    fn fmt<W: fmt::Write>(&self, f: &mut fmt::Formatter<W>) -> fmt::Result {
        match self.0 {
            Some(text) => Quoted(text).fmt(f),
            None => f.write_str("none"),
        }
    }
}

// Whether a field may be null.
fn presence(required: bool) -> &'static str
    ensures { result.now ≡ required_text required }
{
    if required { "required" } else { "optional" }
}
