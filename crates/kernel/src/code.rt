ghost use Rattle.std.specs.Prelude.{◌≡◌, Some};
ghost use Rattle.kernel.specs.Refusal.{letter_of, code_of};

use crate::fault::{KernelFault, Layer, Unfit};
use std::fmt;

// What a fault tells a person or a program: its number, its place and the letter of the layer where it arose. Numbers and letters,
// since faults are called so outside; code goes by the enum.
#[derive(Clone, Copy, PartialEq, Eq, Debug)]
pub struct Code {
    pub number: u8,
    pub place: u64,
    pub letter: char,
}

impl From<Layer> for char {
    ghost from_gives = { λ layer letter. letter ≡ letter_of layer };

    fn from(layer: Layer) -> char {
        match layer {
            Layer::Short => 'k',
            Layer::Product => 'p',
        }
    }
}

impl From<KernelFault> for Code {
    ghost from_gives = { λ fault code. code ≡ code_of fault };

    fn from(fault: KernelFault) -> Code {
        let (number, place, layer) = match fault {
            KernelFault::Unfit(Unfit::NoShortKernel(length)) => (1, length, Layer::Short),
            KernelFault::Unfit(Unfit::SharedDivisor(divisor)) => (2, divisor, Layer::Product),
            KernelFault::Unfit(Unfit::TooLong(length)) => (3, length, Layer::Product),
            KernelFault::Unfit(Unfit::TooMuchGain(gain)) => (4, gain, Layer::Product),
            KernelFault::BlockLength(layer, length) => (7, length, layer),
            KernelFault::ImageLength(layer, length) => (8, length, layer),
            KernelFault::Reading(layer, index) => (9, index, layer),
        };
        Code {
            number,
            place,
            letter: layer.into(),
        }
    }
}

impl fmt::Display for Code {
    ghost use Rattle.kernel.specs.Text.{code_text};

    ghost output = { λ code. Some (code_text code) };

    fn fmt<W: fmt::Write>(&self, f: &mut fmt::Formatter<W>) -> fmt::Result {
        write!(
            f,
            "number {}, place {}, layer {}",
            self.number, self.place, self.letter
        )
    }
}
