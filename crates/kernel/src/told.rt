ghost use Rattle.std.specs.Prelude.{◌≡◌, Some};

use crate::fault::Unfit;
use std::fmt;

// What a kernel tells of itself: 0 for each figure where it is unfit. No `Result`, since every figure has an answer of any kernel.
#[derive(Clone, Copy, PartialEq, Eq, Debug, Default)]
pub struct Told {
    pub fault: Option<Unfit>,
    pub length: usize,
    pub gain: u64,
    pub limit: u64,
    pub scale: u64,
    pub count: usize,
}

impl From<Unfit> for Told {
    ghost use Rattle.kernel.specs.Meaning.{told_unfit};

    ghost from_gives = { λ unfit told. told ≡ told_unfit unfit };

    fn from(unfit: Unfit) -> Told {
        Told {
            fault: Some(unfit),
            ..Told::default()
        }
    }
}

impl fmt::Display for Told {
    ghost use Rattle.kernel.specs.Text.{told_text};

    ghost output = { λ told. Some (told_text told) };

    fn fmt<W: fmt::Write>(&self, f: &mut fmt::Formatter<W>) -> fmt::Result {
        match self.fault {
            Some(unfit) => unfit.fmt(f),
            None => write!(
                f,
                "gain {}, limit {}, scale {}, {} products",
                self.gain, self.limit, self.scale, self.count
            ),
        }
    }
}
