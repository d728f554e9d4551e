ghost use Rattle.std.specs.Prelude.{◌≡◌};
ghost use Rattle.meaning.specs.Items.{numeral as numeral'};
ghost use Rattle.items.specs.Numerals.{meant, reason};

use fault::Refusal;

// Why the bytes at the front of a slice are no number.
#[derive(Clone, Copy)]
pub(crate) enum NoNumber {
    Cut,
    Long,
}

impl From<NoNumber> for Refusal {
    ghost from_gives = { λ why refusal. refusal ≡ reason why };

    fn from(why: NoNumber) -> Refusal {
        match why {
            NoNumber::Cut => Refusal::Cut,
            NoNumber::Long => Refusal::LongNumber,
        }
    }
}

// The number at the front of a slice, and how many bytes it has: groups of seven bits, lowest first, bit 7 set on every byte but the
// last; at most five bytes, the fifth below 16.
pub(crate) fn number_at(bytes: &[u8]) -> Result<(u32, usize), NoNumber>
    ensures { meant result ≡ numeral' bytes.now }
{
    let mut value: u32 = 0;
    for (k, &b) in bytes.iter().enumerate() {
        if k == 4 && b >= 16 {
            return Err(NoNumber::Long);
        }
        if b < 128 {
            if b == 0 && k > 0 {
                return Err(NoNumber::Long);
            }
            return Ok((value + (u32::from(b) << (7 * k)), k + 1));
        }
        value += u32::from(b - 128) << (7 * k);
    }
    Err(NoNumber::Cut)
}
