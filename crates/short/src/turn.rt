ghost use Rattle.std.specs.Prelude.{◌≡◌, ◌+◌, ◌^◌, ◌<◌, pos, ◌*ℤ◌, ◌<ℤ◌};
ghost use Rattle.short.specs.Room.{Turnable, Multiple, turns};
ghost use Rattle.short.specs.Short.{short_limit};
ghost use Rattle.tables.specs.declared.scale.Scale.TheVariants.{Standard};
ghost use Rattle.tables.specs.Entries.{scale_of};

use crate::product::product;

// The quotient of a number that D divides.
pub(crate) fn divided<const D: i64>(x: i64) -> i64
    requires above { pos 0 <ℤ D }
    requires exact { Multiple D x }
    ensures { x ≡ D *ℤ result }
{
    x / D
}

// Three numbers weighed by three entries, and by the entries turned by one place and by two: four products instead of nine.
// Three times each sum is carried, and divided at the end. The count is handed on as `product` gives it.
pub(crate) fn turned(count: usize, entries: [i64; 3], numbers: [i64; 3]) -> (usize, [i64; 3])
    requires few { count < 2 ^ 16 }
    requires small { Turnable (scale_of Standard) short_limit entries numbers }
    ensures { result ≡ (count + 4, turns entries numbers) }
{
    let [a, b, c] = entries;
    let [x, y, z] = numbers;
    let sum = a + b + c;
    let (made, all) = product(count, sum, x + y + z);
    let (made, first) = product(made, 3 * a - sum, x - z);
    let (made, second) = product(made, 3 * b - sum, y - z);
    let (made, last) = product(made, 3 * c - sum, y - x);
    let sums = [
        divided::<3>(all + first + second),
        divided::<3>(all - first + last),
        divided::<3>(all - second - last),
    ];
    (made, sums)
}
