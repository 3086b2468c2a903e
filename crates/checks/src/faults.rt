use kernel::{Code, KernelFault, Layer, Told, Unfit, first_above};
use std::process::Abort;
use std::test::Fail;

#[test]
fn figures_decide_what_is_admitted(rt: HostRuntime) {
    let told = Told {
        fault: None,
        length: 2,
        gain: 1,
        limit: 5,
        scale: 1,
        count: 0,
    };
    assert_eq!(rt; told.admit(Layer::Product, &[5, -5], 2), Ok(()));
    assert_eq!(rt;
        told.admit(Layer::Product, &[5, -6], 2),
        Err(KernelFault::Reading(Layer::Product, 1))
    );
    assert_eq!(rt;
        told.admit(Layer::Product, &[6, -6], 3),
        Err(KernelFault::ImageLength(Layer::Product, 3))
    );
    assert_eq!(rt;
        told.admit(Layer::Product, &[6], 3),
        Err(KernelFault::BlockLength(Layer::Product, 1))
    );
    assert_eq!(rt; first_above(&[0, 7, -8], 7), Some(2));
    assert_eq!(rt; first_above(&[i64::MIN], u64::MAX), None);
    assert_eq!(rt; first_above(&[], 0), None);
}

// The fault has this number, place and letter.
fn tells(rt: &impl Abort, fault: KernelFault, number: u8, place: u64, letter: char) {
    assert_eq!(rt;
        Code::from(fault),
        Code {
            number,
            place,
            letter
        }
    );
}

#[test]
fn codes_of_faults(rt: HostRuntime) {
    tells(
        &rt,
        KernelFault::Unfit(Unfit::NoShortKernel(u64::MAX)),
        1,
        u64::MAX,
        'k',
    );
    tells(&rt, KernelFault::Unfit(Unfit::SharedDivisor(3)), 2, 3, 'p');
    tells(&rt, KernelFault::Unfit(Unfit::TooLong(505)), 3, 505, 'p');
    tells(
        &rt,
        KernelFault::Unfit(Unfit::TooMuchGain(536870912)),
        4,
        536870912,
        'p',
    );
    tells(&rt, KernelFault::BlockLength(Layer::Short, 2), 7, 2, 'k');
    tells(&rt, KernelFault::ImageLength(Layer::Product, 2), 8, 2, 'p');
    tells(&rt, KernelFault::Reading(Layer::Short, 1), 9, 1, 'k');
}

#[test]
fn printed_faults_and_figures(rt: HostRuntime) -> Result<(), Fail> {
    let alloc = rt.alloc();
    let fault = KernelFault::Reading(Layer::Product, 1);
    assert_eq!(rt;
        format!(in alloc; "{fault}")?.as_str(),
        "number 9, place 1, layer p"
    );
    let unfit = Unfit::NoShortKernel(2);
    assert_eq!(rt;
        format!(in alloc; "{unfit}")?.as_str(),
        "number 1, place 2, layer k"
    );
    let told = Told {
        fault: None,
        length: 2,
        gain: 1,
        limit: 5,
        scale: 3,
        count: 4,
    };
    assert_eq!(rt;
        format!(in alloc; "{told}")?.as_str(),
        "gain 1, limit 5, scale 3, 4 products"
    );
    let none = Told::from(unfit);
    assert_eq!(rt;
        format!(in alloc; "{none}")?.as_str(),
        "number 1, place 2, layer k"
    );
    Ok(())
}
