//! Typed filters, by steps and by blocks.

use fixed_filter::{BlockOverflow, Fir, Shape, TapOverflow, filter_block};
use fixed_num::FixedI8;

/// The taps 1.5 and -0.5.
const TAPS: [FixedI8<6>; 2] = [FixedI8 { bits: 96 }, FixedI8 { bits: -32 }];

/// Samples and outputs in units of 1/16: half of three times a sample, and minus half of the one before it, each rounded
/// down. So -17 gives -26 and -16, and 1 gives 1 and 8. At 127 and at -100 the first product is out of range; at 84 it is
/// 126, and with 50 the sum is.
const STEPS: [(i8, Result<FixedI8<4>, TapOverflow>); 8] = [
    (16, Ok(FixedI8 { bits: 24 })),
    (32, Ok(FixedI8 { bits: 40 })),
    (-17, Ok(FixedI8 { bits: -42 })),
    (1, Ok(FixedI8 { bits: 9 })),
    (127, Err(TapOverflow { tap: 0 })),
    (-100, Err(TapOverflow { tap: 0 })),
    (84, Err(TapOverflow { tap: 1 })),
    (0, Ok(FixedI8 { bits: -42 })),
];

#[test]
fn steps(rt: HostRuntime) {
    let mut past = [FixedI8::<4> { bits: 0 }; 2];
    let mut filter = Fir::<i8, 4, 6, 4>::new(&TAPS, &mut past);
    for (sample, wanted) in STEPS {
        let found = filter.push(FixedI8 { bits: sample });
        assert!(rt; found == wanted, "at the sample {sample}");
    }
    filter.reset();
    assert!(rt; filter.push(FixedI8 { bits: 16 }) == Ok(FixedI8 { bits: 24 }));
    assert!(rt; past == [FixedI8 { bits: 16 }, FixedI8 { bits: 0 }]);
}

/// The samples of a block.
const BLOCK: [FixedI8<4>; 6] = [
    FixedI8 { bits: 16 },
    FixedI8 { bits: 32 },
    FixedI8 { bits: -17 },
    FixedI8 { bits: 1 },
    FixedI8 { bits: 127 },
    FixedI8 { bits: -100 },
];

/// Those after it: 0 gives 0 and -64, and -85 gives -128 and 0. At 84 the sum of 126 and 42 is out of range.
const LATER: [FixedI8<4>; 3] = [
    FixedI8 { bits: 0 },
    FixedI8 { bits: -85 },
    FixedI8 { bits: 84 },
];

/// Outputs from the stop on are unchanged, and the past has the sample at which a block stops.
#[test]
fn blocks(rt: HostRuntime) {
    let mut past = [FixedI8::<4> { bits: 0 }; 2];
    let mut first = [FixedI8::<4> { bits: 5 }; 6];
    let mut second = [FixedI8::<4> { bits: 5 }; 3];
    let mut filter = Fir::<i8, 4, 6, 4>::new(&TAPS, &mut past);
    let stop = filter.push_block(&BLOCK, &mut first);
    assert!(rt; stop == Err(BlockOverflow { sample: 4, tap: 0 }));
    let stop = filter.push_block(&LATER, &mut second);
    assert!(rt; stop == Err(BlockOverflow { sample: 2, tap: 1 }));
    let outputs = first.map(|output| output.bits);
    assert!(rt; outputs == [24, 40, -42, 9, 5, 5]);
    assert!(rt; second.map(|output| output.bits) == [-64, -128, 5]);
    assert!(rt; past == [FixedI8 { bits: 84 }, FixedI8 { bits: -85 }]);
}

/// The taps 1, 2 and -2 in whole units.
const WHOLE_TAPS: [i8; 3] = [1, 2, -2];

/// The shape of whole numbers.
const WHOLE: Shape = Shape {
    out_frac: 0,
    coef_frac: 0,
    sample_frac: 0,
};

/// No partial sum of samples up to 24 passes 120.
#[test]
fn block_with_room(rt: HostRuntime) {
    let mut past = [0_i8; 3];
    let mut output = [0_i8; 6];
    let input = [10, -20, 24, 3, -24, 7];
    assert!(rt; filter_block(&WHOLE, &WHOLE_TAPS, &mut past, &input, &mut output) == Ok(()));
    assert!(rt; output == [10, 0, -36, 91, -66, -47]);
    assert!(rt; past == [7, -24, 3]);
}

/// After 50 the sum of the first two products is 130, and that of all three is 70.
#[test]
fn block_without_room(rt: HostRuntime) {
    let mut past = [0_i8; 3];
    let mut output = [9_i8; 7];
    let input = [10, 20, 30, 40, 50, 25, 60];
    let stop = filter_block(&WHOLE, &WHOLE_TAPS, &mut past, &input, &mut output);
    assert!(rt; stop == Err(BlockOverflow { sample: 4, tap: 1 }));
    assert!(rt; output == [10, 40, 50, 60, 9, 9, 9]);
    assert!(rt; past == [50, 40, 30]);
}
