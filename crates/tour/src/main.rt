#![tactic(auto)]

ghost use Rattle.std.specs.Prelude.{◌≡◌, IfOk};
ghost use Rattle.kernel.specs.Refusal.{image_after};
ghost use Rattle.short.specs.Kernels.{short_length};
ghost use Rattle.short.specs.Short.{direct};

use report::{attempt, cancelling, introduce, refusals};
use short::Direct;
use std::io;

// Transforms a block by the kernel and prints what came of it: `attempt`, with its promise for the direct kernel by name.
fn show(rt: &HostRuntime, kernel: &Direct, block: &[i64], image: &mut [i64]) -> io::Result<()>
    ensures { image.new ≡ image_after (direct (short_length kernel.now)) block.now image.old }
{
    let _ = attempt(rt, kernel, block, image)?;
    Ok(())
}

// Makes the direct kernel of a length, and prints what it tells.
fn make(rt: &HostRuntime, length: usize) -> io::Result<Direct>
    ensures { IfOk result (λ k. short_length k ≡ length) }
{
    let kernel = Direct::new(length);
    introduce(rt, format_args!("direct kernel of length {length}"), kernel)
}

// Blocks of several lengths and their bins.
fn transforms(rt: &HostRuntime) -> io::Result<()> {
    show(rt, &make(rt, 3)?, &[1, 2, 3], &mut [0; 3])?;
    show(rt, &make(rt, 4)?, &[1, 2, 3, 4], &mut [0; 4])?;
    show(rt, &make(rt, 5)?, &[0, 1, 0, 0, 0], &mut [0; 5])?;
    show(rt, &make(rt, 7)?, &[1; 7], &mut [0; 7])?;
    show(rt, &make(rt, 9)?, &[1; 9], &mut [0; 9])
}

fn main(rt: HostRuntime) -> io::Result<()> {
    transforms(&rt)?;
    show(&rt, &make(&rt, 2)?, &[5, 7], &mut [0; 2])?;
    let _ = refusals(&rt, &make(&rt, 3)?)?;
    let _ = cancelling(&rt, &make(&rt, 7)?)?;
    Ok(())
}
