use kernel::{Kernel, KernelFault, Told, Unfit};
use std::process::Abort;
use std::test::Fail;

// A block with its bins.
#[derive(Clone, Copy)]
pub(crate) struct Example {
    pub(crate) block: &'static [i64],
    pub(crate) bins: &'static [i64],
}

// One of each length from 3 to 9.
pub(crate) const EXAMPLES: [Example; 7] = [
    Example {
        block: &[1, 2, 3],
        bins: &[98304, -24576, -14189],
    },
    Example {
        block: &[1, 2, 3, 4],
        bins: &[163840, -32768, -32768, -32768],
    },
    Example {
        block: &[0, 1, 0, 0, 0],
        bins: &[16384, 5063, -13255, 9630, 15582],
    },
    Example {
        block: &[1, -2, 3, -4, 5, -6],
        bins: &[-49152, -49152, -49152, 344064, 85134, 28378],
    },
    Example {
        block: &[1, 1, 1, 1, 1, 1, 1],
        bins: &[114688, 0, 0, 0, 0, 0, 0],
    },
    Example {
        block: &[0, 0, 0, 1, 0, 0, 0, 7],
        bins: &[131072, 69510, 0, -69510, -131072, -69510, -131072, -69510],
    },
    Example {
        block: &[1, 1, 1, 1, 1, 1, 1, 1, 1],
        bins: &[147456, 0, 0, 0, 0, 0, 0, 0, 0],
    },
];

// The kernel gives the block these bins, by so many products.
pub(crate) fn gives<K: Kernel>(
    rt: &impl Abort,
    kernel: &K,
    block: &[i64],
    bins: &[i64],
    products: usize,
    image: &mut [i64],
) -> Result<(), Fail> {
    let count = kernel.transform(block, image)?;
    assert_eq!(rt; &*image, bins);
    assert_eq!(rt; count, products);
    Ok(())
}

// The transform is refused by this fault and leaves the image, all 4s, as it was.
pub(crate) fn refuses<K: Kernel>(
    rt: &impl Abort,
    kernel: &K,
    block: &[i64],
    image: &mut [i64],
    fault: KernelFault,
) {
    assert_eq!(rt; kernel.transform(block, image), Err(fault));
    assert!(rt; image.iter().all(|bin| *bin == 4));
}

// Each example by the kernel of its length, which makes so many products.
pub(crate) fn gives_examples<K: Kernel + Drop, F: Fn(usize) -> K>(
    rt: &(impl Abort + AllocGlobal),
    kernel_of: F,
    products: [usize; 7],
) -> Result<(), Fail>
    requires { F.IsAlwaysCallable kernel_of }
{
    for (example, products) in EXAMPLES.iter().zip(&products) {
        let mut image = vec![in rt.alloc(); 9; example.block.len()]?;
        let kernel = kernel_of(example.block.len());
        gives(
            rt,
            &kernel,
            example.block,
            example.bins,
            *products,
            &mut image,
        )?;
    }
    Ok(())
}

// Lengths without a short kernel: the kernel tells its fault and zeros, and refuses by that fault.
pub(crate) fn unfit_lengths<K: Kernel + Drop, F: Fn(usize) -> K>(
    rt: &impl Abort,
    kernel_of: F,
) -> Result<(), Fail>
    requires { F.IsAlwaysCallable kernel_of }
{
    for length in [0, 1, 2, 10, usize::MAX] {
        let kernel = kernel_of(length);
        let unfit = Unfit::NoShortKernel(u64::try_from(length)?);
        let told = Told {
            fault: Some(unfit),
            length: 0,
            gain: 0,
            limit: 0,
            scale: 0,
            count: 0,
        };
        assert_eq!(rt; kernel.tell(), told);
        refuses(rt, &kernel, &[1, 2], &mut [4; 2], KernelFault::Unfit(unfit));
    }
    Ok(())
}
