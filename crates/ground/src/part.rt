// A part of a slice, by a number that may lie past its end.
ghost use Rattle.std.specs.Prelude.{◌≡◌, take};

// The first n, or all where there are fewer.
pub fn front<T>(xs: &[T], n: usize) -> &[T]
    ensures { result.now ≡ take n xs.now }
{
    &xs[..n.min(xs.len())]
}
