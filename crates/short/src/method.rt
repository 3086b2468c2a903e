ghost use Rattle.std.specs.Prelude.{◌≡◌, ℕ, ◌*◌, ◌≤◌, true, length as size};
ghost use Rattle.kernel.specs.Bins.{image as image_of};
ghost use Rattle.kernel.specs.declared.fault.Unfit.TheVariants.{NoShortKernel};
ghost use Rattle.short.specs.Methods.{Chosen};
ghost use Rattle.short.specs.Room.{Small};
ghost use Rattle.short.specs.Short.{short_limit};
ghost use Rattle.tables.specs.declared.scale.Scale.TheVariants.{Standard};
ghost use Rattle.tables.specs.Entries.{is_short, tables_of};

use kernel::Unfit;

// The fault of a length that no short kernel has.
pub(crate) fn no_short_kernel(length: usize) -> Unfit
    ensures { result ≡ NoShortKernel length }
{
    // `as` loses nothing of a length, and there is no `From` for it.
    Unfit::NoShortKernel(length as u64)
}

// A way to work the bins of a short block: one value of the type serves one length.
pub(crate) trait Method: TryFrom<usize, Error = Unfit> {
    // The length that it serves.
    ghost serves: { Self → ℕ };

    // The products that it makes, by the length.
    ghost count: { ℕ → ℕ };

    // The products that it makes.
    fn products(self) -> usize
        ensures { result ≡ count (serves self) };

    // Writes all bins of the block, and answers the count of products. Block and image are two callers' slices, so that they are of one
    // length is asked and not in a type.
    fn bins(self, block: &[i64], image: &mut [i64]) -> usize
        requires whole { size block.now ≡ serves self }
        requires room { size image.old ≡ serves self }
        requires readings { Small short_limit block.now }
        ensures made { result ≡ count (serves self) }
        ensures writes { image.new ≡ image_of (tables_of Standard (serves self)) block.now };

    // A number becomes the method that serves it, or the fault of a length that no short kernel has.
    ghost chosen: { (N : ℕ) (answer : _) → Self.try_from_gives N answer → Chosen serves N answer };

    // It makes no more products than the sums as they are written.
    ghost few: { (N : ℕ) → is_short N ≡ true → count N ≤ N * N };
}
