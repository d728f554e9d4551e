ghost use Rattle.std.specs.Prelude.{ℕ};
ghost use Rattle.meaning.specs.Columns as columns;
ghost use Rattle.items.specs.Reading.{Reads};
ghost use Rattle.fault.specs.Faults.{entry_of};
ghost use Rattle.columns.specs.Codes.{Formed, code_meant, size_from};

use fault::{BatchFault, Entry, Refusal};
use items::Reader;

// A column's code, with its width or its size.
#[derive(Clone, Copy, Debug, PartialEq, Eq)]
pub enum Code {
    Boolean,
    Int32,
    Int64,
    Float32,
    Float64,
    Date32,
    Time64Microsecond,
    TimestampMicrosecond,
    TimestampNanosecond,
    Utf8,
    LargeUtf8,
    FixedSizeBinary(u32),
    Binary,
    LargeBinary,
    Struct,
    List,
    LargeList,
    FixedSizeList(u32),
    Map,
}

// How a column's code goes on after its byte: not at all, or with a width or a size.
#[derive(Clone, Copy)]
pub(crate) enum Form {
    Plain(Code),
    FixedSizeBinary,
    FixedSizeList,
}

// A byte that is no column's code.
#[derive(Clone, Copy)]
pub(crate) struct UnknownCode;

impl TryFrom<u8> for Form {
    type Error = UnknownCode;

    ghost try_from_gives = { Formed };

    fn try_from(code: u8) -> Result<Self, UnknownCode> {
        match code {
            1 => Ok(Form::Plain(Code::Boolean)),
            2 => Ok(Form::Plain(Code::Int32)),
            3 => Ok(Form::Plain(Code::Int64)),
            4 => Ok(Form::Plain(Code::Float32)),
            5 => Ok(Form::Plain(Code::Float64)),
            7 => Ok(Form::Plain(Code::Date32)),
            8 => Ok(Form::Plain(Code::Time64Microsecond)),
            9 => Ok(Form::Plain(Code::TimestampMicrosecond)),
            10 => Ok(Form::Plain(Code::TimestampNanosecond)),
            11 => Ok(Form::Plain(Code::Utf8)),
            12 => Ok(Form::Plain(Code::LargeUtf8)),
            13 => Ok(Form::FixedSizeBinary),
            14 => Ok(Form::Plain(Code::Binary)),
            15 => Ok(Form::Plain(Code::LargeBinary)),
            16 => Ok(Form::Plain(Code::Struct)),
            17 => Ok(Form::Plain(Code::List)),
            18 => Ok(Form::Plain(Code::LargeList)),
            19 => Ok(Form::FixedSizeList),
            20 => Ok(Form::Plain(Code::Map)),
            _ => Err(UnknownCode),
        }
    }
}

// A width or a size, which may not be 0.
fn read_size(reader: &mut Reader, entry: Entry) -> Result<u32, BatchFault>
    ensures { Reads (λ (k : ℕ). k) (size_from (entry_of entry)) reader.old result reader.new }
{
    let start = reader.at;
    let size = reader.limited(65536, entry)?;
    if size == 0 {
        return Err(BatchFault::new(Refusal::Unported, start, entry));
    }
    Ok(size)
}

// The code of column `n`, and the width or the size that it asks for.
pub(crate) fn read_code(reader: &mut Reader, n: usize) -> Result<Code, BatchFault>
    ensures { Reads code_meant (columns.code_of n) reader.old result reader.new }
{
    let entry = Entry::Column(n);
    let start = reader.at;
    let code = reader.byte(entry)?;
    let form = Form::try_from(code).map_err(|_| BatchFault::new(Refusal::Code, start, entry))?;
    match form {
        Form::Plain(code) => Ok(code),
        Form::FixedSizeBinary => read_size(reader, entry).map(Code::FixedSizeBinary),
        Form::FixedSizeList => read_size(reader, entry).map(Code::FixedSizeList),
    }
}
