#![tactic(auto)]

use report::{attempt, cancelling, compare, introduce, refusals};
use short::{Direct, Fast};
use std::io;

// Blocks of every length that has a short kernel.
fn transforms(rt: &HostRuntime) -> io::Result<()> {
    introduce(rt, "direct kernel of length 9", Direct::new(9))?;
    introduce(rt, "fast kernel of length 9", Fast::new(9))?;
    println!(rt; "both kernels")?;
    compare(rt, &[1, 2, 3], &mut [0; 3], &mut [0; 3])?;
    compare(rt, &[1, 2, 3, 4], &mut [0; 4], &mut [0; 4])?;
    compare(rt, &[0, 1, 0, 0, 0], &mut [0; 5], &mut [0; 5])?;
    compare(rt, &[1, -2, 3, -4, 5, -6], &mut [0; 6], &mut [0; 6])?;
    compare(rt, &[1; 7], &mut [0; 7], &mut [0; 7])?;
    compare(rt, &[0, 0, 0, 1, 0, 0, 0, 7], &mut [0; 8], &mut [0; 8])?;
    compare(rt, &[1; 9], &mut [0; 9], &mut [0; 9])?;
    compare(rt, &[-(1 << 40); 9], &mut [0; 9], &mut [0; 9])
}

fn main(rt: HostRuntime) -> io::Result<()> {
    transforms(&rt)?;
    let unfit = introduce(&rt, "fast kernel", Fast::new(2))?;
    let _ = attempt(&rt, &unfit, &[5, 7], &mut [0; 2])?;
    let _ = refusals(
        &rt,
        &introduce(&rt, "fast kernel of length 3", Fast::new(3))?,
    )?;
    let _ = cancelling(
        &rt,
        &introduce(&rt, "fast kernel of length 7", Fast::new(7))?,
    )?;
    Ok(())
}
