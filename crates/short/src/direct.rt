ghost use Rattle.std.specs.Prelude.{◌≡◌, ℕ, ◌+◌, ◌*◌, ◌%◌, ◌^◌, ◌<◌, true, length as size, ◌*ℤ◌};
ghost use Rattle.algebra.specs.Sums.{Σ};
ghost use Rattle.kernel.specs.Bins.{reading, bin, image as image_of};
ghost use Rattle.short.specs.Laws.{sums_few};
ghost use Rattle.short.specs.Methods.{Chosen};
ghost use Rattle.tables.specs.declared.scale.Scale.TheVariants.{Standard};
ghost use Rattle.tables.specs.Entries.{is_short, row_of, entries, tables_of};

use crate::inputs::Inputs;
use crate::method::{Method, no_short_kernel};
use crate::product::product;
use kernel::Unfit;
use tables::{Table, is_short};

// The kernel over these sums, also by this path.
pub use crate::short_kernel::Direct;

// The sums of a short length as they are written.
#[derive(Clone, Copy)]
pub struct Sums {
    length: usize,
    ghost short: { is_short length ≡ true },
}

impl TryFrom<usize> for Sums {
    ghost use Rattle.short.specs.Kernels.{sums_length};

    type Error = Unfit;

    ghost try_from_gives = { Chosen sums_length };

    fn try_from(length: usize) -> Result<Sums, Unfit> {
        if is_short(length) {
            Ok(Sums { length })
        } else {
            Err(no_short_kernel(length))
        }
    }
}

impl Method for Sums {
    ghost use Rattle.short.specs.Kernels.{sums_length};

    ghost serves = { sums_length };

    ghost count = { λ N. N * N };

    ghost chosen = { λ N answer gives. gives };

    ghost few = { sums_few };

    fn products(self) -> usize {
        self.length * self.length
    }

    fn bins(self, block: &[i64], image: &mut [i64]) -> usize {
        Inputs::new(self.length, block).sums(image)
    }
}

impl Inputs<'_> {
    // The row of a table: passing it on by itself would ask again whose row it is.
    fn row(&self, table: Table) -> &'static [i64]
        ensures row { result.now ≡ row_of (entries table Standard) (size self.now.x.now) }
        ensures whole { size result.now ≡ size self.now.x.now }
    {
        match table {
            Table::Cosines => self.cos,
            Table::Sines => self.sin,
        }
    }

    // The readings times every n-th entry of the table, added up; and the count of products, which is handed on as `product` gives it.
    fn weigh(&self, table: Table, n: usize, count: usize) -> (usize, i64)
        requires step { n < size self.now.x.now }
        requires few { count < 2 ^ 16 }
        ensures { result ≡ (count + size self.now.x.now, Σ (size self.now.x.now) (λ k. reading self.now.x.now k *ℤ entries table Standard (size self.now.x.now) (n * k % size self.now.x.now))) }
    {
        let row = self.row(table);
        let mut made = count;
        let mut sum: i64 = 0;
        let mut at = 0;
        for value in self.x {
            let (next, term) = product(made, *value, row[at]);
            made = next;
            sum += term;
            // The index goes round the row by a subtraction: with a remainder length 9 takes 2.7 times as long.
            at += n;
            if at >= row.len() {
                at -= row.len();
            }
        }
        (made, sum)
    }

    // Bin n of the block, and the count of products, likewise.
    fn bin(&self, n: usize, count: usize) -> (usize, i64)
        requires at { n < size self.now.x.now }
        requires few { count < 2 ^ 16 }
        ensures { result ≡ (count + size self.now.x.now, bin (tables_of Standard (size self.now.x.now)) (reading self.now.x.now) n) }
    {
        if n <= self.x.len() / 2 {
            self.weigh(Table::Cosines, n, count)
        } else {
            let (made, sum) = self.weigh(Table::Sines, n, count);
            (made, -sum)
        }
    }

    // Writes all bins of the block, and answers the count of products. The length of the caller's image is asked, as in `bins`.
    fn sums(&self, image: &mut [i64]) -> usize
        requires room { size image.old ≡ size self.now.x.now }
        ensures made { result ≡ size self.now.x.now * size self.now.x.now }
        ensures writes { image.new ≡ image_of (tables_of Standard (size self.now.x.now)) self.now.x.now }
    {
        let mut count = 0;
        for (n, bin) in image.iter_mut().enumerate() {
            let (made, value) = self.bin(n, count);
            *bin = value;
            count = made;
        }
        count
    }
}
