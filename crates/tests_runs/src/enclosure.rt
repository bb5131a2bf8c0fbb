//! Enclosures of numbers: each call once, at a concrete type, with ends from its definition.

ghost use Rattle.std.specs.Prelude.{◌≡◌, ◌≤ℤ◌};

use fixed_enclosure::Enclosure;
use fixed_interval::Interval;
use fixed_num::Fixed;

/// The enclosure from `lo` to `hi`, in units of 1/16.
fn made(lo: i8, hi: i8) -> Enclosure<i8, 4>
    requires { lo ≤ℤ hi }
    ensures { result ≡ record { lo = lo; hi = hi } }
{
    Enclosure::from_interval(Interval::from_ends(lo, hi))
}

/// The bits of both ends, if there is an enclosure.
fn ends(enclosure: Option<Enclosure<i8, 4>>) -> Option<(i8, i8)> {
    match enclosure {
        Some(found) => Some((found.low().bits, found.high().bits)),
        None => None,
    }
}

#[test]
fn each_operation(rt: HostRuntime) {
    let (a, b) = (made(-16, 24), made(8, 16)); // from -1 to 1.5, from 0.5 to 1
    let found = [
        ends(a.checked_add(b)),
        ends(a.checked_sub(b)),
        ends(a.checked_mul(b)),
        ends(a.checked_div(b)),
        ends(b.checked_sqrt()),
        ends(a.checked_neg()),
        ends(a.checked_abs()),
        ends(a.checked_square()),
        ends(Some(a.hull(b))),
        ends(a.intersection(b)),
        ends(Some(-b)),
        ends(Some(a + b)),
        ends(Enclosure::new(a.high(), a.low())),
        ends(Some(Enclosure::point(a.high()))),
    ];
    let wanted = [
        Some((-8, 40)),
        Some((-32, 16)),
        Some((-16, 24)),
        Some((-32, 48)),
        Some((11, 16)), // of 128 and 256 the roots, rounded outward
        Some((-24, 16)),
        Some((0, 24)),
        Some((0, 36)), // 576 over 16
        Some((-16, 24)),
        Some((8, 16)),
        Some((-16, -8)),
        Some((-8, 40)),
        None,
        Some((24, 24)),
    ];
    assert!(rt; found == wanted);
    assert!(rt; a.width().bits == 40);
}

#[test]
fn each_comparison(rt: HostRuntime) {
    let (a, b) = (made(-16, 24), made(8, 16));
    let found = [
        a.contains(Fixed { bits: 24 }),
        a.contains_enclosure(b),
        a.certainly_lt(b),
        a.certainly_le(b),
        b.certainly_eq(b),
        a.possibly_lt(b),
        a.possibly_le(b),
        a.possibly_eq(b),
    ];
    assert!(rt; found == [true, true, false, false, false, true, true, true]);
}
