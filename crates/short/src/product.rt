ghost use Rattle.std.specs.Prelude.{◌≡◌, ◌+◌, ◌^◌, ◌<◌, ◌*ℤ◌, FitsSigned};
ghost use Rattle.std.specs.Int.{w64};

// A reading, or a sum of readings, times a number formed from a table, and the count of products raised by one.
// Every counted product is made here: it takes the count so far and answers it one higher.
pub(crate) fn product(count: usize, a: i64, b: i64) -> (usize, i64)
    requires few { count < 2 ^ 32 }
    requires room { FitsSigned w64 (a *ℤ b) }
    ensures { result ≡ (count + 1, a *ℤ b) }
{
    (count + 1, a * b)
}
