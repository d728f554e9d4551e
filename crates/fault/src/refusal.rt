ghost use Rattle.std.specs.Prelude.{◌≡◌};
ghost use Rattle.fault.specs.Numbers.{number_of};

// Why a call refuses, in the order of the numbers in the table of refusals, which begin with 1.
#[derive(Clone, Copy, Debug, PartialEq, Eq)]
pub enum Refusal {
    // the bytes end before an item does
    Cut,
    // a number's fifth byte is 16 or more, or the number is not in its shortest form
    LongNumber,
    // an edition, code or flag byte that is not listed
    Code,
    // a limit of the format is passed, or the work tables are too short
    Limit,
    // an offset is negative, below the one before it, or past the end of what it cuts
    Offset,
    // a column's length is not the one that its holder requires
    Length,
    // type Decimal; a struct, list or map as a map's key type; width 0 or size 0
    Unported,
    // bytes follow the last column
    Leftover,
    // a number handed in names no field or column, or none of the kind that the call is for
    NoPlace,
    // the struct partner or a field is sought in a column that is no struct
    NoStruct,
    // the accessor picks no child for the field
    NoMatch,
    // an element is sought, or a list is cut, in a column that is no list
    NoList,
    // a key or value is sought, or a map is cut, in a column that is no map
    NoMap,
    // a primitive type meets a column code that it does not accept
    WrongColumn,
    // a null in a required struct field, where its struct is not null
    NullField,
    // a null in a required element or map value, in the span of a slot that is not null
    NullElement,
    // a struct's field result has not as many rows as the struct's column
    UnevenRows,
    // key and value results differ in length
    UnevenPairs,
    // a null key in the span of a slot that is not null
    NullKey,
    // a span ends past the element result, or past the key and value results
    ShortChild,
    // the cells that a step needs do not fit, or too few results are lent to a walk
    NoCells,
    // a 257th id
    FullTable,
}

impl Refusal {
    // The refusal's number in the table of refusals.
    pub fn number(self) -> u8
        ensures { result ≡ number_of self }
    {
        self as u8 + 1
    }
}
