ghost use Rattle.std.specs.Prelude.{◌≡◌, Some};
ghost use Rattle.kernel.specs.declared.fault.KernelFault.TheVariants.{Unfit as UnfitFault};

use std::error::Error;
use std::fmt;

// What a fault tells a person or a program, also by this path.
pub use crate::code::Code;

// The layer where a kernel's fault arose.
#[derive(Clone, Copy, PartialEq, Eq, Debug)]
pub enum Layer {
    Short,
    Product,
}

// Why a kernel is unfit: it has no tables, and refuses every transform.
#[derive(Clone, Copy, PartialEq, Eq, Debug)]
pub enum Unfit {
    // 1: no short kernel has this length
    NoShortKernel(u64),
    // 2: the lengths of the two parts share this divisor
    SharedDivisor(u64),
    // 3: the lengths of the two parts multiply to this, above 504
    TooLong(u64),
    // 4: twice the product of the parts' gains is above 2^48; the first part's gain
    TooMuchGain(u64),
}

// Why a transform is refused.
#[derive(Clone, Copy, PartialEq, Eq, Debug)]
pub enum KernelFault {
    // 1 to 4
    Unfit(Unfit),
    // 7: the block's length
    BlockLength(Layer, u64),
    // 8: the image's length
    ImageLength(Layer, u64),
    // 9: the index of the first reading above the limit
    Reading(Layer, u64),
}

impl From<Unfit> for KernelFault {
    ghost from_gives = { λ unfit fault. fault ≡ UnfitFault unfit };

    fn from(unfit: Unfit) -> KernelFault {
        KernelFault::Unfit(unfit)
    }
}

impl fmt::Display for Unfit {
    ghost use Rattle.kernel.specs.Text.{unfit_text};

    ghost output = { λ unfit. Some (unfit_text unfit) };

    fn fmt<W: fmt::Write>(&self, f: &mut fmt::Formatter<W>) -> fmt::Result {
        KernelFault::from(*self).fmt(f)
    }
}

impl fmt::Display for KernelFault {
    ghost use Rattle.kernel.specs.Text.{fault_text};

    ghost output = { λ fault. Some (fault_text fault) };

    fn fmt<W: fmt::Write>(&self, f: &mut fmt::Formatter<W>) -> fmt::Result {
        Code::from(*self).fmt(f)
    }
}

impl Error for Unfit {}

impl Error for KernelFault {}
