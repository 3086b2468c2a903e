ghost use Rattle.std.specs.Prelude.{◌≡◌, length as size};
ghost use Rattle.short.specs.Laws.{few_products};
ghost use Rattle.short.specs.Methods.{Chosen, length_of};
ghost use Rattle.short.specs.Short.{fast_count};

use crate::inputs::Inputs;
use crate::method::{Method, no_short_kernel};
use kernel::Unfit;

// The kernel over these algorithms, also by this path.
pub use crate::short_kernel::Fast;

// The algorithm of each length from 3 to 9, by few products.
#[derive(Clone, Copy)]
pub enum Algorithm {
    Three,
    Four,
    Five,
    Six,
    Seven,
    Eight,
    Nine,
}

impl TryFrom<usize> for Algorithm {
    type Error = Unfit;

    ghost try_from_gives = { Chosen length_of };

    fn try_from(length: usize) -> Result<Algorithm, Unfit> {
        match length {
            0..=2 => Err(no_short_kernel(length)),
            n if n > 9 => Err(no_short_kernel(n)),
            3 => Ok(Algorithm::Three),
            4 => Ok(Algorithm::Four),
            5 => Ok(Algorithm::Five),
            6 => Ok(Algorithm::Six),
            7 => Ok(Algorithm::Seven),
            8 => Ok(Algorithm::Eight),
            _ => Ok(Algorithm::Nine),
        }
    }
}

// Writes the bins, and answers their count of products. The length of the caller's image is asked, as in `bins`.
fn put<const N: usize>(answer: (usize, [i64; N]), image: &mut [i64]) -> usize
    requires room { size image.old ≡ N }
    ensures made { result ≡ answer.entry.0 }
    ensures writes { image.new ≡ answer.entry.1 }
{
    let (made, bins) = answer;
    image.copy_from_slice(&bins);
    made
}

impl Method for Algorithm {
    ghost serves = { length_of };

    ghost count = { fast_count };

    ghost chosen = { λ N answer gives. gives };

    ghost few = { few_products };

    fn products(self) -> usize {
        match self {
            Algorithm::Three => 2,
            Algorithm::Four => 0,
            Algorithm::Five => 5,
            Algorithm::Six => 4,
            Algorithm::Seven => 8,
            Algorithm::Eight => 2,
            Algorithm::Nine => 10,
        }
    }

    // The one `match` over the length answers an enum and this runs it, since no function may hand out another.
    fn bins(self, block: &[i64], image: &mut [i64]) -> usize {
        match self {
            Algorithm::Three => put(Inputs::new(3, block).three(), image),
            Algorithm::Four => put(Inputs::new(4, block).four(), image),
            Algorithm::Five => put(Inputs::new(5, block).five(), image),
            Algorithm::Six => put(Inputs::new(6, block).six(), image),
            Algorithm::Seven => put(Inputs::new(7, block).seven(), image),
            Algorithm::Eight => put(Inputs::new(8, block).eight(), image),
            Algorithm::Nine => put(Inputs::new(9, block).nine(), image),
        }
    }
}
