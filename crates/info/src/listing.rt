// Lines one after the other, in the order of the entries' numbers.
ghost use Rattle.std.specs.Prelude.{◌≡◌, ℕ, ◌+◌, ◌≤◌, List, ◌++◌, Some, string_bytes, OnOk};
ghost use Rattle.meaning.specs.Forest.{Forest, find, size};
ghost use Rattle.meaning.specs.Model as model;
ghost use Rattle.batch.specs.Batches as batches;
ghost use Rattle.batch.specs.Views.{numbered};
ghost use Rattle.info.specs.Lines.{column_line, field_line, lines};
ghost use Rattle.info.specs.Segments.{between, written};

use crate::lines::Line;
use batch::{Batch, Column, Field};
use std::alloc::AllocError;
use std::fmt;

// Numbered entries that are shown line by line.
pub(crate) trait Listing {
    type Line: fmt::Display + Copy;

    ghost Head: { Type 0 };

    ghost forest: { Self → Forest Head };

    ghost text: { ℕ → ℕ → Head → List ℕ };

    // The line of an entry, if there is one of this number, and the number that comes after its subtree.
    fn line(&self, level: usize, number: usize) -> Option<(Self::Line, usize)>
        ensures { written Self.Line.output result ≡ written (λ h. Some (text level number h)) (numbered number (find number 1 (forest self.now))) };
}

// The fields of a batch.
#[derive(Clone, Copy)]
pub(crate) struct Fields<'b, 'a>(pub(crate) &'b Batch<'a>);

// The columns of a batch.
#[derive(Clone, Copy)]
pub(crate) struct Columns<'b, 'a>(pub(crate) &'b Batch<'a>);

impl<'a> Listing for Fields<'_, 'a> {
    type Line = Line<Field<'a>>;

    ghost Head = { model.Field };

    ghost forest = { λ l. (batches.model l.0.now).fields };

    ghost text = { field_line };

    fn line(&self, level: usize, number: usize) -> Option<(Line<Field<'a>>, usize)> {
        let entry = self.0.field(number)?;
        Some((Line::new(level, number, entry), entry.end))
    }
}

impl<'a> Listing for Columns<'_, 'a> {
    type Line = Line<Column<'a>>;

    ghost Head = { model.Column };

    ghost forest = { λ l. (batches.model l.0.now).columns };

    ghost text = { column_line };

    fn line(&self, level: usize, number: usize) -> Option<(Line<Column<'a>>, usize)> {
        let entry = self.0.column(number)?;
        Some((Line::new(level, number, entry), entry.end))
    }
}

// Adds the lines of the entries side by side from `first` up to `end`, each followed by those below it, one level deeper.
pub(crate) fn put_lines<L: Listing>(
    list: &L,
    out: &mut String,
    level: usize,
    first: usize,
    end: usize,
) -> Result<(), AllocError>
    requires whole { end ≡ first + size (between (L.Listing.forest list.now) first end) }
    requires level { level ≤ first }
    requires counted { 1 ≤ first }
    ensures { OnOk result (string_bytes out.new ≡ string_bytes out.old ++ lines L.Listing.text level first (between (L.Listing.forest list.now) first end)) }
{
    let mut n = first;
    while n < end {
        let Some((line, next)) = list.line(level, n) else {
            return Ok(());
        };
        writeln!(out, "{line}")?;
        put_lines(list, out, level + 1, n + 1, next)?;
        n = next;
    }
    Ok(())
}
