ghost use Rattle.std.specs.Prelude.{◌≡◌, ◌+◌, ◌/◌, ◌≤◌};

// How many slots a column has.
#[derive(Clone, Copy)]
pub(crate) struct Slots {
    pub(crate) count: usize,
    ghost small: { count ≤ 65536 },
}

impl Slots {
    // The bytes of a bitmap, which has one bit a slot.
    pub(crate) fn bitmap_len(self) -> usize
        ensures { result ≡ (self.count + 7) / 8 }
    {
        self.count.div_ceil(8)
    }
}
