ghost use Rattle.std.specs.Prelude.{◌≡◌, true, if◌then◌else◌, Some, None};
ghost use Rattle.tables.specs.Entries.{is_short, row_of};
ghost use Rattle.tables.specs.Laws.{ShortLaws};

use crate::scale::Scale;

// The rows of lengths 0 to 9: those below 3 have no entries.
const COSINES: [&[i64]; 10] = [
    &[],
    &[],
    &[],
    &[16384, -8192, -8192],
    &[16384, 0, -16384, 0],
    &[16384, 5063, -13255, -13255, 5063],
    &[16384, 8192, -8192, -16384, -8192, 8192],
    &[16384, 10215, -3646, -14761, -14761, -3646, 10215],
    &[16384, 11585, 0, -11585, -16384, -11585, 0, 11585],
    &[
        16384, 12551, 2845, -8192, -15396, -15396, -8192, 2845, 12551,
    ],
];

const SINES: [&[i64]; 10] = [
    &[],
    &[],
    &[],
    &[0, 14189, -14189],
    &[0, 16384, 0, -16384],
    &[0, 15582, 9630, -9630, -15582],
    &[0, 14189, 14189, 0, -14189, -14189],
    &[0, 12810, 15973, 7109, -7109, -15973, -12810],
    &[0, 11585, 16384, 11585, 0, -11585, -16384, -11585],
    &[0, 10531, 16135, 14189, 5604, -5604, -14189, -16135, -10531],
];

const FINE_COSINES: [&[i64]; 10] = [
    &[],
    &[],
    &[],
    &[1073741824, -536870912, -536870912],
    &[1073741824, 0, -1073741824, 0],
    &[1073741824, 331804471, -868675383, -868675383, 331804471],
    &[
        1073741824,
        536870912,
        -536870912,
        -1073741824,
        -536870912,
        536870912,
    ],
    &[
        1073741824, 669467077, -238930034, -967407956, -967407956, -238930034, 669467077,
    ],
    &[
        1073741824,
        759250125,
        0,
        -759250125,
        -1073741824,
        -759250125,
        0,
        759250125,
    ],
    &[
        1073741824,
        822533958,
        186453311,
        -536870912,
        -1008987269,
        -1008987269,
        -536870912,
        186453311,
        822533958,
    ],
];

const FINE_SINES: [&[i64]; 10] = [
    &[],
    &[],
    &[],
    &[0, 929887697, -929887697],
    &[0, 1073741824, 0, -1073741824],
    &[0, 1021189159, 631129609, -631129609, -1021189159],
    &[0, 929887697, 929887697, 0, -929887697, -929887697],
    &[
        0,
        839485162,
        1046820875,
        465879117,
        -465879117,
        -1046820875,
        -839485162,
    ],
    &[
        0,
        759250125,
        1073741824,
        759250125,
        0,
        -759250125,
        -1073741824,
        -759250125,
    ],
    &[
        0,
        690187940,
        1057429273,
        929887697,
        367241333,
        -367241333,
        -929887697,
        -1057429273,
        -690187940,
    ],
];

// One of the two tables of a length.
#[derive(Clone, Copy)]
pub enum Table {
    Cosines,
    Sines,
}

impl Table {
    ghost use Rattle.tables.specs.Entries.{entries};
    ghost use Rattle.tables.specs.Rule.{Right};

    // Entries 0, 1, .. length - 1, or nothing where there is no table of the length. The rule says which number each entry is.
    pub fn row(self, scale: Scale, length: usize) -> &'static [i64]
        ensures row { result.now ≡ row_of (entries self scale) length }
        ensures rule { Right self scale }
    {
        let rows = match (self, scale) {
            (Table::Cosines, Scale::Standard) => &COSINES,
            (Table::Cosines, Scale::Fine) => &FINE_COSINES,
            (Table::Sines, Scale::Standard) => &SINES,
            (Table::Sines, Scale::Fine) => &FINE_SINES,
        };
        rows.get(length).copied().unwrap_or(&[])
    }

    // Entry m, round the end of the row, or nothing where there is no table of the length.
    pub fn entry(self, scale: Scale, length: usize, m: usize) -> Option<i64>
        ensures { result ≡ (if is_short length then Some (entries self scale length m) else None) }
    {
        let row = self.row(scale, length);
        let at = m.checked_rem(row.len())?;
        Some(row[at])
    }
}

// Whether there are tables of this length: they then keep the laws of a kernel's tables.
pub fn is_short(length: usize) -> bool
    ensures answer { result ≡ is_short length }
    ensures laws { result ≡ true → ShortLaws length }
{
    (3..=9).contains(&length)
}
