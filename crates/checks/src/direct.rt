use crate::transforms::{gives, gives_examples, refuses, unfit_lengths};
use kernel::{KernelFault, Layer, Unfit};
use short::Direct;
use std::test::Fail;

#[test]
fn worked_examples(rt: HostRuntime) -> Result<(), Fail> {
    gives_examples(&rt, Direct::new, [9, 16, 25, 36, 49, 64, 81])
}

#[test]
fn readings_up_to_the_limit(rt: HostRuntime) -> Result<(), Fail> {
    let most = 1 << 40;
    gives(
        &rt,
        &Direct::new(3),
        &[most, -most, most],
        &[1 << 54, 1 << 54, -(28378 << 40)],
        9,
        &mut [0; 3],
    )?;
    gives(
        &rt,
        &Direct::new(9),
        &[most; 9],
        &[9 << 54, 0, 0, 0, 0, 0, 0, 0, 0],
        81,
        &mut [0; 9],
    )?;
    gives(
        &rt,
        &Direct::new(9),
        &[-most; 9],
        &[-(9 << 54), 0, 0, 0, 0, 0, 0, 0, 0],
        81,
        &mut [0; 9],
    )?;
    refuses(
        &rt,
        &Direct::new(3),
        &[0, most + 1, 0],
        &mut [4; 3],
        KernelFault::Reading(Layer::Short, 1),
    );
    refuses(
        &rt,
        &Direct::new(3),
        &[-most - 1, 0, i64::MIN],
        &mut [4; 3],
        KernelFault::Reading(Layer::Short, 0),
    );
    refuses(
        &rt,
        &Direct::new(4),
        &[0, 0, 0, i64::MIN],
        &mut [4; 4],
        KernelFault::Reading(Layer::Short, 3),
    );
    refuses(
        &rt,
        &Direct::new(4),
        &[0, 0, i64::MAX, 0],
        &mut [4; 4],
        KernelFault::Reading(Layer::Short, 2),
    );
    Ok(())
}

#[test]
fn other_lengths_are_unfit(rt: HostRuntime) -> Result<(), Fail> {
    unfit_lengths(&rt, Direct::new)
}

#[test]
fn checks_come_in_order(rt: HostRuntime) {
    let unfit = KernelFault::Unfit(Unfit::NoShortKernel(2));
    refuses(&rt, &Direct::new(2), &[i64::MIN], &mut [4; 3], unfit);
    refuses(
        &rt,
        &Direct::new(3),
        &[i64::MIN; 4],
        &mut [4; 2],
        KernelFault::BlockLength(Layer::Short, 4),
    );
    refuses(
        &rt,
        &Direct::new(3),
        &[],
        &mut [],
        KernelFault::BlockLength(Layer::Short, 0),
    );
    refuses(
        &rt,
        &Direct::new(3),
        &[i64::MIN; 3],
        &mut [4; 2],
        KernelFault::ImageLength(Layer::Short, 2),
    );
    refuses(
        &rt,
        &Direct::new(3),
        &[i64::MIN; 3],
        &mut [4; 3],
        KernelFault::Reading(Layer::Short, 0),
    );
}
