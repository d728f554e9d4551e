ghost use Rattle.std.specs.Prelude.{◌≡◌, ◌-◌, ◌*◌, ◌^◌, length};
ghost use Rattle.meaning.specs.Items.{little};
ghost use Rattle.items.specs.Widths.{wide};

// How many bytes an offset has.
#[derive(Clone, Copy, Debug, PartialEq, Eq)]
pub enum Width {
    Four,
    Eight,
}

impl Width {
    pub fn bytes(self) -> usize
        ensures { result ≡ wide self }
    {
        match self {
            Width::Four => 4,
            Width::Eight => 8,
        }
    }

    // The least number whose top bit is set, which stands for a negative offset.
    pub(crate) fn negative(self) -> u64
        ensures { result ≡ 2 ^ (8 * wide self - 1) }
    {
        1 << (8 * self.bytes() - 1)
    }

    // The number that so many bytes are, low byte first.
    pub(crate) fn word(self, bytes: &[u8]) -> u64
        requires { length bytes.now ≡ wide self }
        ensures { result ≡ little bytes.now }
    {
        match self {
            Width::Four => u64::from(u32::from_le_bytes(*bytes.as_array().unwrap())),
            Width::Eight => u64::from_le_bytes(*bytes.as_array().unwrap()),
        }
    }
}
