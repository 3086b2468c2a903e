// What a kernel means: its tables and bins, the laws that it keeps, and why it refuses.
#![tactic(auto)]

pub mod admit;
pub mod code;
pub mod fault;
pub mod kernel;
pub mod told;

pub use admit::first_above;
pub use code::Code;
pub use fault::{KernelFault, Layer, Unfit};
pub use kernel::Kernel;
pub use told::Told;
