ghost use Rattle.std.specs.Prelude.{◌≡◌};
ghost use Rattle.kernel.specs.Refusal.{first_above, refused, answered};

use crate::fault::{KernelFault, Layer};
use crate::told::Told;

// The index of the first reading whose size is above the limit. A loop with the index, as every check of a block's readings is written.
pub fn first_above(block: &[i64], limit: u64) -> Option<usize>
    ensures { result ≡ first_above limit block.now }
{
    for (index, reading) in block.iter().enumerate() {
        if reading.unsigned_abs() > limit {
            return Some(index);
        }
    }
    None
}

impl Told {
    // Whether a kernel that tells these figures takes the block and an image of this length.
    pub fn admit(&self, layer: Layer, block: &[i64], room: usize) -> Result<(), KernelFault>
        ensures { result ≡ answered tt (refused self.now layer block.now room) }
    {
        if let Some(unfit) = self.fault {
            return Err(unfit.into());
        }
        // `as` loses nothing of a length or an index, and there is no `From` for it.
        if block.len() != self.length {
            return Err(KernelFault::BlockLength(layer, block.len() as u64));
        }
        if room != self.length {
            return Err(KernelFault::ImageLength(layer, room as u64));
        }
        if let Some(index) = first_above(block, self.limit) {
            return Err(KernelFault::Reading(layer, index as u64));
        }
        Ok(())
    }
}
