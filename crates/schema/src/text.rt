// The names of types.
ghost use Rattle.std.specs.Prelude.{Some};
ghost use Rattle.schema.specs.Forms.{prim_of, shape_of};
ghost use Rattle.schema.specs.Text.{primitive_text, type_text};

use crate::types::{Kind, Primitive};
use std::fmt;

// As `long` or `fixed[16]`.
impl fmt::Display for Primitive {
    ghost output = { λ p. Some (primitive_text (prim_of p)) };

    fn fmt<W: fmt::Write>(&self, f: &mut fmt::Formatter<W>) -> fmt::Result {
        match *self {
            Primitive::Boolean => f.write_str("boolean"),
            Primitive::Int => f.write_str("int"),
            Primitive::Long => f.write_str("long"),
            Primitive::Float => f.write_str("float"),
            Primitive::Double => f.write_str("double"),
            Primitive::Date => f.write_str("date"),
            Primitive::Time => f.write_str("time"),
            Primitive::Timestamp => f.write_str("timestamp"),
            Primitive::Timestamptz => f.write_str("timestamptz"),
            Primitive::TimestampNs => f.write_str("timestamp_ns"),
            Primitive::TimestamptzNs => f.write_str("timestamptz_ns"),
            Primitive::String => f.write_str("string"),
            Primitive::Uuid => f.write_str("uuid"),
            Primitive::Fixed(length) => write!(f, "fixed[{length}]"),
            Primitive::Binary => f.write_str("binary"),
        }
    }
}

// As `long`, `fixed[16]` or `struct`.
impl fmt::Display for Kind {
    ghost output = { λ k. Some (type_text (shape_of k)) };

    fn fmt<W: fmt::Write>(&self, f: &mut fmt::Formatter<W>) -> fmt::Result {
        match self {
            Kind::Primitive(primitive) => primitive.fmt(f),
            Kind::Struct => f.write_str("struct"),
            Kind::List => f.write_str("list"),
            Kind::Map => f.write_str("map"),
        }
    }
}
