// What the programs print of a kernel.
#![tactic(auto)]

ghost use Rattle.std.specs.Prelude.{◌≡◌, ◌↔◌, map, length as size, replicate, pos, neg_ℤ, IsTrue, IfOk};
ghost use Rattle.kernel.specs.Refusal.{answer_of, image_after};
ghost use Rattle.report.specs.Shown.{limits, sample};
ghost use Rattle.short.specs.Short.{direct, fast};

use kernel::{Kernel, KernelFault};
use short::{Direct, Fast};
use std::fmt::Display;
use std::io;

// What a transform answers.
pub type Answer = Result<usize, KernelFault>;

// Prints a heading and what the kernel tells, its figures or why it is unfit; and gives the kernel back.
pub fn introduce<K: Kernel + Drop>(
    rt: &impl Print,
    heading: impl Display + Drop,
    kernel: K,
) -> io::Result<K>
    ensures { IfOk result (λ k. k ≡ kernel) }
{
    let told = kernel.tell();
    let word = if told.fault.is_some() {
        "unfit"
    } else {
        "tells"
    };
    println!(rt; "{heading}")?;
    println!(rt; "  {word}     {told}")?;
    Ok(kernel)
}

// Prints a block.
fn show_block(rt: &impl Print, block: &[i64]) -> io::Result<()> {
    println!(rt; "  block     {block:?}")
}

// Prints what a transform answered, and the image that it left under this name.
fn show_answer(rt: &impl Print, name: &str, answer: Answer, image: &[i64]) -> io::Result<()> {
    match answer {
        Ok(count) => println!(rt; "  {name:<10}{image:?} by {count} products"),
        Err(fault) => println!(rt; "  refused   {fault}"),
    }
}

// Transforms a block by the kernel, prints what came of it and gives the answer. The image is then the block's, also where printing
// fails.
pub fn attempt<K: Kernel>(
    rt: &impl Print,
    kernel: &K,
    block: &[i64],
    image: &mut [i64],
) -> io::Result<Answer>
    ensures answers { IfOk result (λ answer. answer ≡ answer_of (K.meaning kernel.now) block.now (size image.old)) }
    ensures writes { image.new ≡ image_after (K.meaning kernel.now) block.now image.old }
{
    let answer = kernel.transform(block, image);
    show_block(rt, block)?;
    show_answer(rt, "bins", answer, image)?;
    Ok(answer)
}

// Transforms a block by the direct and by the fast kernel of its length: both answers, and whether the images are equal. Images that
// were equal before are equal again.
pub fn by_both(block: &[i64], one: &mut [i64], other: &mut [i64]) -> (Answer, Answer, bool)
    ensures slow { result.0 ≡ answer_of (direct (size block.now)) block.now (size one.old) }
    ensures quick { result.1 ≡ answer_of (fast (size block.now)) block.now (size other.old) }
    ensures first { one.new ≡ image_after (direct (size block.now)) block.now one.old }
    ensures second { other.new ≡ image_after (fast (size block.now)) block.now other.old }
    ensures equal { IsTrue result.2 ↔ (one.new ≡ other.new) }
    ensures agree { one.old ≡ other.old → one.new ≡ other.new }
{
    let slow = Direct::new(block.len()).transform(block, one);
    let quick = Fast::new(block.len()).transform(block, other);
    (slow, quick, *one == *other)
}

// Prints a block, and what both kernels make of it.
pub fn compare(rt: &impl Print, block: &[i64], one: &mut [i64], other: &mut [i64]) -> io::Result<()>
    ensures first { one.new ≡ image_after (direct (size block.now)) block.now one.old }
    ensures second { other.new ≡ image_after (fast (size block.now)) block.now other.old }
{
    let (slow, quick, same) = by_both(block, one, other);
    show_block(rt, block)?;
    show_answer(rt, "direct", slow, one)?;
    show_answer(rt, "fast", quick, other)?;
    println!(rt; "  the bins agree: {same}")
}

// What a kernel of length 3 refuses, of each kind, and the largest reading that it takes: its answers.
pub fn refusals<K: Kernel>(rt: &impl Print, kernel: &K) -> io::Result<[Answer; 5]>
    ensures { IfOk result (λ answers. answers ≡ limits (K.meaning kernel.now)) }
{
    Ok([
        attempt(rt, kernel, &[1, 2], &mut [0; 3])?,
        attempt(rt, kernel, &[1, 2, 3], &mut [0; 4])?,
        attempt(rt, kernel, &[0, 1 << 40, 0], &mut [0; 3])?,
        attempt(rt, kernel, &[0, (1 << 40) + 1, 0], &mut [0; 3])?,
        attempt(rt, kernel, &[0, 0, i64::MIN], &mut [0; 3])?,
    ])
}

// The bins of a block of length 7 and of its negative, which cancel, whatever the kernel.
pub fn cancelling<K: Kernel>(rt: &impl Print, kernel: &K) -> io::Result<([i64; 7], [i64; 7])>
    ensures bins { IfOk result (λ images. images.0 ≡ image_after (K.meaning kernel.now) sample (replicate 7 (pos 0))) }
    ensures cancel { IfOk result (λ images. images.1 ≡ map neg_ℤ images.0) }
{
    let mut bins = [0; 7];
    let mut others = [0; 7];
    let _ = attempt(rt, kernel, &[-3, 14, 1, -59, 26, 5, 35], &mut bins)?;
    let _ = attempt(rt, kernel, &[3, -14, -1, 59, -26, -5, -35], &mut others)?;
    let mut together = bins;
    for (sum, other) in together.iter_mut().zip(&others) {
        *sum = sum.saturating_add(*other);
    }
    println!(rt; "  together  {together:?}")?;
    Ok((bins, others))
}
