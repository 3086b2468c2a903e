// Cosines and sines of lengths 3 to 9 in whole numbers, at two scales.
#![tactic(auto)]

pub mod scale;
pub mod table;

// `is_short` also by the path that it had before the two tables became one type.
pub mod entry {
    pub use crate::table::is_short;
}

pub use scale::Scale;
pub use table::{Table, is_short};
