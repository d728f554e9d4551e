// Names as text.
ghost use Rattle.std.specs.Prelude.{◌≡◌, Some};
ghost use Rattle.std.specs.Fmt.{WritesOnOk};
ghost use Rattle.info.specs.Lines.{quoted, quoted_byte, printable};

use std::fmt;

// Bytes between double quotes.
#[derive(Clone, Copy)]
pub(crate) struct Quoted<'a>(pub(crate) &'a [u8]);

impl fmt::Display for Quoted<'_> {
    ghost output = { λ q. Some (quoted q.0.now) };

    fn fmt<W: fmt::Write>(&self, f: &mut fmt::Formatter<W>) -> fmt::Result {
        f.write_char('"')?;
        for &byte in self.0 {
            put_byte(f, byte)?;
        }
        f.write_char('"')
    }
}

// Writes a byte between the quotes.
fn put_byte<W: fmt::Write>(f: &mut fmt::Formatter<W>, byte: u8) -> fmt::Result
    ensures { WritesOnOk W.write_str_gives f.old result (quoted_byte byte) f.new }
{
    if is_printable(byte) {
        f.write_char(byte as char)
    } else {
        let high = char::from_digit(u32::from(byte / 16), 16).unwrap();
        let low = char::from_digit(u32::from(byte % 16), 16).unwrap();
        write!(f, "\\x{high}{low}")
    }
}

// Whether a byte stands between the quotes as it is.
fn is_printable(byte: u8) -> bool
    ensures { result ≡ printable byte }
{
    matches!(byte, b' '..=b'~') && !matches!(byte, b'"' | b'\\')
}
