ghost use Rattle.std.specs.Prelude.{◌≡◌, length, replicate};

// Writes `x` into every element.
pub fn fill<T: Copy>(items: &mut [T], x: T)
    ensures { items.new ≡ replicate (length items.old) x }
{
    for item in items.iter_mut() {
        *item = x;
    }
}
