use crate::transforms::{gives_examples, refuses, unfit_lengths};
use kernel::{Kernel, KernelFault, Layer};
use short::{Direct, Fast};
use std::array;
use std::process::Abort;
use std::test::Fail;

#[test]
fn fast_worked_examples(rt: HostRuntime) -> Result<(), Fail> {
    gives_examples(&rt, Fast::new, [2, 0, 5, 4, 8, 2, 10])
}

// The fast kernel writes what the direct one does, and each answers the count that it tells.
fn agrees(rt: &(impl Abort + AllocGlobal), block: &[i64]) -> Result<(), Fail> {
    let mut one = vec![in rt.alloc(); 0; block.len()]?;
    let mut other = vec![in rt.alloc(); 0; block.len()]?;
    let direct = Direct::new(block.len());
    let fast = Fast::new(block.len());
    assert_eq!(rt; direct.transform(block, &mut one)?, direct.tell().count);
    assert_eq!(rt; fast.transform(block, &mut other)?, fast.tell().count);
    assert_eq!(rt; one, other);
    Ok(())
}

// The two agree on the first readings of a block, at every length.
fn all_lengths_agree(rt: &(impl Abort + AllocGlobal), block: &[i64; 9]) -> Result<(), Fail> {
    for length in 3..=9 {
        agrees(rt, &block[..length])?;
    }
    Ok(())
}

#[test]
fn largest_readings_of_all_signs(rt: HostRuntime) -> Result<(), Fail> {
    for pattern in 0..512u32 {
        let block = array::from_fn(|k| {
            if pattern >> (k % 9) & 1 == 1 {
                -(1 << 40)
            } else {
                1 << 40
            }
        });
        all_lengths_agree(&rt, &block)?;
    }
    Ok(())
}

#[test]
fn one_reading_at_each_place(rt: HostRuntime) -> Result<(), Fail> {
    for place in 0..9 {
        for size in [1, -(1 << 40)] {
            let block = array::from_fn(|k| if k == place { size } else { 0 });
            all_lengths_agree(&rt, &block)?;
        }
    }
    Ok(())
}

// Readings from a fixed sequence: up to 2^39 in size, and up to 2^15 in size.
#[test]
fn table_of_blocks(rt: HostRuntime) -> Result<(), Fail> {
    let mut state = 1u64;
    for turn in 0..2000u32 {
        let mut block = [0; 9];
        for reading in &mut block {
            state = state
                .wrapping_mul(6364136223846793005)
                .wrapping_add(1442695040888963407);
            let size = i64::try_from(state >> 24)? - (1 << 39);
            *reading = if turn % 2 == 0 { size } else { size >> 24 };
        }
        all_lengths_agree(&rt, &block)?;
    }
    Ok(())
}

#[test]
fn fast_refuses_as_the_direct_kernel(rt: HostRuntime) -> Result<(), Fail> {
    unfit_lengths(&rt, Fast::new)?;
    refuses(
        &rt,
        &Fast::new(4),
        &[i64::MIN; 3],
        &mut [4; 3],
        KernelFault::BlockLength(Layer::Short, 3),
    );
    refuses(
        &rt,
        &Fast::new(4),
        &[i64::MIN; 4],
        &mut [4; 3],
        KernelFault::ImageLength(Layer::Short, 3),
    );
    refuses(
        &rt,
        &Fast::new(4),
        &[0, 1 << 40, (1 << 40) + 1, i64::MIN],
        &mut [4; 4],
        KernelFault::Reading(Layer::Short, 2),
    );
    Ok(())
}
