ghost use Rattle.std.specs.Prelude.{◌≡◌, true, length as size};
ghost use Rattle.short.specs.Room.{Ready, Small};
ghost use Rattle.short.specs.Short.{short_limit};
ghost use Rattle.tables.specs.declared.scale.Scale.TheVariants.{Standard};
ghost use Rattle.tables.specs.Entries.{is_short};

use tables::{Scale, Table};

// What the bins of a block are worked from: its readings, and the rows of cosines and of sines of its length.
#[derive(Clone, Copy)]
pub(crate) struct Inputs<'a> {
    pub(crate) cos: &'static [i64],
    pub(crate) sin: &'static [i64],
    pub(crate) x: &'a [i64],
    ghost ready: { Ready Standard short_limit x.now cos.now sin.now },
}

impl<'a> Inputs<'a> {
    // A block of this length. Where the length is written out at the call, the compiler works out the numbers formed from entries;
    // with `block.len()` in its place the fast kernel of length 9 takes 33 ns instead of 25.
    pub(crate) fn new(length: usize, block: &'a [i64]) -> Inputs<'a>
        requires whole { size block.now ≡ length }
        requires short { is_short length ≡ true }
        requires readings { Small short_limit block.now }
        ensures { result.x.now ≡ block.now }
    {
        let scale = Scale::Standard;
        Inputs {
            cos: Table::Cosines.row(scale, length),
            sin: Table::Sines.row(scale, length),
            x: block,
        }
    }
}
