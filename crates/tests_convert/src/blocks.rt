//! Blocks: each operation by a policy, with results that were computed by hand. 16 units are 1.0.

use fixed_block::{
    Abs, Add, Convert, Dist, Each, Mul, MulAdd, MulInt, Neg, Pairs, Scale, Sub, checked_each,
    checked_pairs, saturating_each, saturating_pairs, wrapping_each, wrapping_pairs,
};
use fixed_word::Rounding;

/// A block of `i8` after a saturating operation.
fn saturated<O: Each<i8>>(operation: &O) -> [i8; 3]
    requires { O.each_ready operation.now }
{
    let mut block = [40, -128, 127];
    saturating_each(operation, &mut block);
    block
}

#[test]
fn one_block(rt: HostRuntime) {
    assert!(rt; saturated(&Abs) == [40, 127, 127]);
    assert!(rt; saturated(&Neg) == [-40, 127, -127]);
    assert!(rt; saturated(&MulInt { k: 3 }) == [120, -128, 127]);
    assert!(rt; saturated(&Scale { by: 24, frac: 4 }) == [60, -128, 127]);
    let eighths = Convert {
        from: 4,
        to: 3,
        rounding: Rounding::Even,
    };
    assert!(rt; saturated(&eighths) == [20, -64, 64]);
    let mut block = [40_i8, -128, 127];
    wrapping_each(&Neg, &mut block);
    assert!(rt; block == [-40, -128, -127]);
}

#[test]
fn one_block_checked(rt: HostRuntime) {
    let mut block = [40_i8, -128, 127];
    assert!(rt; checked_each(&Neg, &mut block) == Some(1));
    assert!(rt; block == [-40, -128, 127]);
    assert!(rt; checked_each(&Scale { by: 8, frac: 4 }, &mut block) == None);
    assert!(rt; block == [-20, -64, 63]);
}

/// A block of `u16` after a wrapping operation with another one.
fn wrapped<O: Pairs<u16>>(operation: &O) -> [u16; 2]
    requires { O.pairs_ready operation.now }
{
    let mut block = [40, 60000];
    wrapping_pairs(operation, &mut block, &[24, 10000]);
    block
}

#[test]
fn two_blocks(rt: HostRuntime) {
    assert!(rt; wrapped(&Add) == [64, 4464]);
    assert!(rt; wrapped(&Sub) == [16, 50000]);
    assert!(rt; wrapped(&Dist) == [16, 50000]);
    assert!(rt; wrapped(&Mul { frac: 4 }) == [60, 13408]);
    assert!(rt; wrapped(&MulAdd { by: 8, frac: 4 }) == [52, 65000]);
    let mut block = [40_i64, i64::MAX];
    saturating_pairs(&Add, &mut block, &[24, 1]);
    assert!(rt; block == [64, i64::MAX]);
}

#[test]
fn two_blocks_checked(rt: HostRuntime) {
    let mut block = [40_i8, 100];
    assert!(rt; checked_pairs(&MulAdd { by: 8, frac: 4 }, &mut block, &[24, 100]) == Some(1));
    assert!(rt; block == [52, 100]);
    assert!(rt; checked_pairs(&Sub, &mut block, &[52, 100]) == None);
    assert!(rt; block == [0, 0]);
}
