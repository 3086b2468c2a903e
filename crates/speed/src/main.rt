#![tactic(auto)]

use kernel::{Kernel, KernelFault};
use short::{Direct, Fast};
use std::env;
use std::time::Instant;

// The first readings of each block.
const READINGS: [i64; 9] = [1, 20, 300, -4000, 5, -60, 700, 8000, -9];

// Transforms one block after the other, and mixes all bins together so that no transform can be left out.
fn mixed<K: Kernel>(
    kernel: &K,
    block: &mut [i64],
    image: &mut [i64],
    rounds: u32,
) -> Result<i64, KernelFault> {
    let mut mix = 0;
    for round in 0..rounds {
        kernel.transform(block, image)?;
        for (reading, bin) in block.iter_mut().zip(image.iter()) {
            *reading ^= i64::from(round & 0x7fff);
            mix ^= *bin;
        }
    }
    Ok(mix)
}

// The picoseconds that one transform takes, and its bins mixed together. Block and image are arrays: no want of memory ends a timing.
fn time<K: Kernel>(rt: &HostRuntime, kernel: &K, rounds: u32) -> anyhow::Result<(u64, i64)> {
    let mut block = READINGS;
    let mut image = [0; 9];
    let length = kernel.tell().length.min(block.len());
    let start = Instant::now(rt)?;
    let mix = mixed(kernel, &mut block[..length], &mut image[..length], rounds)?;
    let nanos = start.elapsed(rt)?.as_nanos();
    let each = nanos.saturating_mul(1000) / u128::from(rounds.max(1));
    Ok((u64::try_from(each).unwrap_or(u64::MAX).min(1 << 60), mix))
}

// One length: the direct kernel, then the fast one, on the same blocks.
fn compare(rt: &HostRuntime, length: usize, rounds: u32) -> anyhow::Result<()> {
    let (direct, one) = time(rt, &Direct::new(length), rounds)?;
    let (fast, other) = time(rt, &Fast::new(length), rounds)?;
    let percent = direct.saturating_mul(100) / fast.max(1);
    let same = one == other;
    println!(rt;
        "{length} {direct:>8} {fast:>8} {:>4}.{:02} {same}",
        percent / 100,
        percent % 100
    )?;
    Ok(())
}

// With a number of rounds as its argument: a line for each length, with the picoseconds of a transform by the direct and by the fast
// kernel, how many times as fast the fast one is, and whether both came to the same bins.
fn main(rt: HostRuntime) -> anyhow::Result<()> {
    let word = env::args(&rt)?.skip(1).last();
    let rounds = word
        .and_then(|word| word.parse::<u32>().ok())
        .filter(|rounds| *rounds > 0);
    let Some(rounds) = rounds else {
        println!(rt; "usage: speed ROUNDS")?;
        return Ok(());
    };
    for length in 3..=9 {
        compare(&rt, length, rounds)?;
    }
    Ok(())
}
