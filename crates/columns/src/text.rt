// The names of codes.
ghost use Rattle.std.specs.Prelude.{Some};
ghost use Rattle.columns.specs.Codes.{code_meant};
ghost use Rattle.columns.specs.Text.{code_text};

use crate::code::Code;
use std::fmt;

// As `utf8` or `fixed_size_binary[16]`.
impl fmt::Display for Code {
    ghost output = { λ c. Some (code_text (code_meant c)) };

    fn fmt<W: fmt::Write>(&self, f: &mut fmt::Formatter<W>) -> fmt::Result {
        match *self {
            Code::Boolean => f.write_str("boolean"),
            Code::Int32 => f.write_str("int32"),
            Code::Int64 => f.write_str("int64"),
            Code::Float32 => f.write_str("float32"),
            Code::Float64 => f.write_str("float64"),
            Code::Date32 => f.write_str("date32"),
            Code::Time64Microsecond => f.write_str("time64[us]"),
            Code::TimestampMicrosecond => f.write_str("timestamp[us]"),
            Code::TimestampNanosecond => f.write_str("timestamp[ns]"),
            Code::Utf8 => f.write_str("utf8"),
            Code::LargeUtf8 => f.write_str("large_utf8"),
            Code::FixedSizeBinary(width) => write!(f, "fixed_size_binary[{width}]"),
            Code::Binary => f.write_str("binary"),
            Code::LargeBinary => f.write_str("large_binary"),
            Code::Struct => f.write_str("struct"),
            Code::List => f.write_str("list"),
            Code::LargeList => f.write_str("large_list"),
            Code::FixedSizeList(size) => write!(f, "fixed_size_list[{size}]"),
            Code::Map => f.write_str("map"),
        }
    }
}
