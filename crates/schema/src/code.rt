ghost use Rattle.schema.specs.Forms.{Formed};

use crate::types::Primitive;

// How a type goes on after its code.
#[derive(Clone, Copy)]
pub(crate) enum Form {
    Plain(Primitive),
    Sized,
    Group,
    One,
    Pair,
    Decimal,
}

// A type code that is not listed.
#[derive(Clone, Copy)]
pub(crate) struct UnknownType;

impl TryFrom<u8> for Form {
    type Error = UnknownType;

    ghost try_from_gives = { Formed };

    fn try_from(code: u8) -> Result<Form, UnknownType> {
        match code {
            1 => Ok(Form::Plain(Primitive::Boolean)),
            2 => Ok(Form::Plain(Primitive::Int)),
            3 => Ok(Form::Plain(Primitive::Long)),
            4 => Ok(Form::Plain(Primitive::Float)),
            5 => Ok(Form::Plain(Primitive::Double)),
            6 => Ok(Form::Decimal),
            7 => Ok(Form::Plain(Primitive::Date)),
            8 => Ok(Form::Plain(Primitive::Time)),
            9 => Ok(Form::Plain(Primitive::Timestamp)),
            10 => Ok(Form::Plain(Primitive::Timestamptz)),
            11 => Ok(Form::Plain(Primitive::TimestampNs)),
            12 => Ok(Form::Plain(Primitive::TimestamptzNs)),
            13 => Ok(Form::Plain(Primitive::String)),
            14 => Ok(Form::Plain(Primitive::Uuid)),
            15 => Ok(Form::Sized),
            16 => Ok(Form::Plain(Primitive::Binary)),
            17 => Ok(Form::Group),
            18 => Ok(Form::One),
            19 => Ok(Form::Pair),
            _ => Err(UnknownType),
        }
    }
}
