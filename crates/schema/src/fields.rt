ghost use Rattle.std.specs.Prelude.{◌≡◌, ℕ, ◌+◌, ◌≤◌, length, replicate, OnErr};
ghost use Rattle.meaning.specs.Forest.{Forest};
ghost use Rattle.meaning.specs.Model as model;
ghost use Rattle.meaning.specs.Schema as schema;
ghost use Rattle.schema.specs.Forms.{shape_of};
ghost use Rattle.schema.specs.Fields.{blank, field_table, one_field, schema_in};
ghost use Rattle.items.specs.Tables.{Enters, Fills};
ghost use Rattle.schema.specs.declared.types.Kind.{Kind as Kin};

use crate::code::Form;
use crate::types::{FieldEntry, Kind, Primitive};
use fault::{BatchFault, Entry, Refusal};
use items::{EntryReader, Reader};

// The number of fields of a schema, and its fields. Gives the number that comes after them.
// A refused reading leaves the reader where it was and the table blank.
pub fn read_schema(reader: &mut Reader, table: &mut [FieldEntry]) -> Result<usize, BatchFault>
    ensures fills { Fills field_table (λ (m : ℕ). m) (λ _ (fs : Forest model.Field). fs) (schema_in (length table.old)) 1 reader.old table.old result reader.new table.new }
    ensures emptied { OnErr result (table.new ≡ replicate (length table.old) blank) }
    ensures stays { OnErr result (reader.new.at ≡ reader.old.at) }
{
    let start = reader.at;
    let read = read_counted(reader, table);
    if read.is_err() {
        reader.at = start;
        table.fill(FieldEntry::BLANK);
    }
    read
}

// The same, with whatever a refusal leaves.
fn read_counted(reader: &mut Reader, table: &mut [FieldEntry]) -> Result<usize, BatchFault>
    ensures { Fills field_table (λ (m : ℕ). m) (λ _ (fs : Forest model.Field). fs) (schema_in (length table.old)) 1 reader.old table.old result reader.new table.new }
{
    if table.len() < 256 {
        return Err(BatchFault::new(Refusal::Limit, 0, Entry::Head));
    }
    let count = reader.number(Entry::Head)?;
    let mut to = EntryReader {
        reader,
        table,
        next: 1,
    };
    read_fields(&mut to, 16, count, false)?;
    Ok(to.next)
}

// Fields side by side, `count` of them; `level` levels are left for them, and the first may be a map's key.
#[cycle(fields)]
fn read_fields(
    to: &mut EntryReader<FieldEntry>,
    level: usize,
    count: u32,
    key: bool,
) -> Result<(), BatchFault>
    ensures { Enters field_table (λ _ (fs : Forest model.Field). fs) (schema.fields level count key to.old.next) to.old.next to.old result to.new }
{
    let mut is_key = key;
    for _ in 0..count {
        if level == 0 || to.next > 256 {
            return Err(BatchFault::new(Refusal::Limit, to.reader.at, Entry::Field(to.next)));
        }
        read_field(to, level - 1, is_key)?;
        is_key = false;
    }
    Ok(())
}

// The next field, and the fields that its type holds at `level` levels below it.
#[cycle(fields)]
fn read_field(to: &mut EntryReader<FieldEntry>, level: usize, key: bool) -> Result<(), BatchFault>
    requires { to.old.next ≤ 256 }
    ensures { Enters field_table (λ _ (fs : Forest model.Field). fs) (one_field (schema.fields level) key to.old.next) to.old.next to.old result to.new }
{
    let n = to.next;
    let entry = Entry::Field(n);
    let id = to.reader.id(entry)?;
    let required = to.reader.flag(entry)?;
    let name = to.reader.text(entry)?;
    let kind = read_kind(to, level, key)?;
    to.table[n - 1] = FieldEntry {
        id,
        required,
        name,
        kind,
        end: to.next,
    };
    Ok(())
}

// The type of the next field, a map's key or not, with the fields that it holds.
#[cycle(fields)]
fn read_kind(to: &mut EntryReader<FieldEntry>, level: usize, key: bool) -> Result<Kind, BatchFault>
    requires { to.old.next ≤ 256 }
    ensures { Enters field_table (λ (k : Kin) (fs : Forest model.Field). (shape_of k, fs)) (schema.typed (schema.fields level) key to.old.next) (to.old.next + 1) to.old result to.new }
{
    let entry = Entry::Field(to.next);
    let start = to.reader.at;
    let code = to.reader.byte(entry)?;
    let form = Form::try_from(code).map_err(|_| BatchFault::new(Refusal::Code, start, entry))?;
    to.next += 1;
    match form {
        Form::Plain(p) => Ok(Kind::Primitive(p)),
        Form::Sized => {
            let len = to.reader.limited(65536, entry)?;
            Ok(Kind::Primitive(Primitive::Fixed(len)))
        }
        Form::Group if !key => {
            let count = to.reader.number(entry)?;
            read_fields(to, level, count, false)?;
            Ok(Kind::Struct)
        }
        Form::One if !key => {
            read_fields(to, level, 1, false)?;
            Ok(Kind::List)
        }
        Form::Pair if !key => {
            read_fields(to, level, 2, true)?;
            Ok(Kind::Map)
        }
        _ => Err(BatchFault::new(Refusal::Unported, start, entry)),
    }
}
