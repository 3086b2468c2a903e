ghost use Rattle.std.specs.Prelude.{◌≡◌, length};
ghost use Rattle.kernel.specs.Meaning.{Meaning, Lawful, told};
ghost use Rattle.kernel.specs.Refusal.{answer_of, image_after};

use crate::fault::KernelFault;
use crate::told::Told;

// A transform of one length in whole numbers. Whoever writes a further kernel gives its meaning and proves the law.
pub trait Kernel {
    // Its figures and tables, and why it is unfit if it is.
    ghost meaning: { Self → Meaning };

    // The figures of the kernel.
    fn tell(&self) -> Told
        ensures { result ≡ told (meaning self.now) };

    // Writes the image of the block and answers the number of table products made; a refusal leaves the image as it was.
    fn transform(&self, block: &[i64], image: &mut [i64]) -> Result<usize, KernelFault>
        ensures answer { result ≡ answer_of (meaning self.now) block.now (length image.old) }
        ensures writes { image.new ≡ image_after (meaning self.now) block.now image.old };

    // A fit kernel keeps the laws, and an unfit one tells 0 for every figure.
    ghost lawful: { (k : Self) → Lawful (meaning k) };
}
