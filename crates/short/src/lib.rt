// Kernels of lengths 3 to 9 over the standard tables.
#![tactic(auto)]

pub mod direct;
pub mod fast;
mod figures;
mod inputs;
mod lengths;
mod method;
mod product;
pub mod short_kernel;
mod turn;

pub use short_kernel::{Direct, Fast, ShortKernel};
