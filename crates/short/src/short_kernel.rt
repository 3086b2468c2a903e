ghost use Rattle.std.specs.Prelude.{◌≡◌, ℕ};
ghost use Rattle.kernel.specs.Bins.{Alike};
ghost use Rattle.short.specs.Short.{short};
ghost use Rattle.short.specs.Laws.{short_lawful};

use crate::direct::Sums;
use crate::fast::Algorithm;
use crate::figures::fit;
use crate::method::Method;
use kernel::{Kernel, KernelFault, Layer, Told};
use std::marker::PhantomData;

// A kernel over the standard tables of a length, which works its bins by the method M.
#[derive(Clone, Copy)]
pub struct ShortKernel<M> {
    length: usize,
    method: PhantomData<M>,
}

// The short kernel that works the sums as they are written.
pub type Direct = ShortKernel<Sums>;

// The short kernel that works the sums with few products.
pub type Fast = ShortKernel<Algorithm>;

impl<M: Method> ShortKernel<M> {
    ghost use Rattle.short.specs.Kernels.{short_length};

    // The kernel of a length: any may be given, and 3 to 9 are fit. It is alike to every short kernel of that length.
    pub fn new(length: usize) -> ShortKernel<M>
        ensures length { short_length result ≡ length }
        ensures alike { (products : ℕ) → Alike (short length products).tables (short length (M.count length)).tables }
    {
        ShortKernel {
            length,
            method: PhantomData,
        }
    }
}

impl<M: Method> Kernel for ShortKernel<M> {
    ghost use Rattle.short.specs.Kernels.{short_length};

    ghost meaning = { λ k. short (short_length k) (M.count (short_length k)) };

    ghost lawful = { λ k. short_lawful (short_length k) (M.count (short_length k)) (M.few (short_length k)) };

    fn tell(&self) -> Told {
        match M::try_from(self.length) {
            Ok(method) => fit(self.length, method.products()),
            Err(unfit) => unfit.into(),
        }
    }

    fn transform(&self, block: &[i64], image: &mut [i64]) -> Result<usize, KernelFault> {
        self.tell().admit(Layer::Short, block, image.len())?;
        Ok(M::try_from(self.length)?.bins(block, image))
    }
}
