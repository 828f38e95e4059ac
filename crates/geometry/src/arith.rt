//! Sums and products of coordinates. Gaps and areas have types that hold their bounds; what is made of them has its bound in a contract.

ghost use Rattle.std.specs.Prelude.{◌≡◌, ◌^◌, ◌≤◌, ◌+ℤ◌, ◌-ℤ◌, unsigned_abs};
ghost use Rattle.geometry.specs.Numbers.{◌·◌};

use crate::bounded::Coordinate;

/// The difference of two coordinates in range.
#[derive(Clone, Copy, Debug, PartialEq, Eq)]
pub(crate) struct Gap {
    // As wide as the products: with 32 bits the tests of the skins take a tenth longer.
    value: i64,
    ghost small: { unsigned_abs value ≤ 2 ^ 14 },
}

/// The gaps from one point in range to another on the three axes.
#[derive(Clone, Copy, Debug, PartialEq, Eq)]
pub(crate) struct Gaps {
    pub(crate) x: Gap,
    pub(crate) y: Gap,
    pub(crate) z: Gap,
}

/// The area that two sides span, seen along an axis; its sign tells which way the second turns from the first.
#[derive(Clone, Copy, Debug, PartialEq, Eq)]
pub(crate) struct Area {
    pub(crate) value: i32,
    ghost small: { unsigned_abs value ≤ 2 ^ 29 },
}

/// A normal: the areas that are seen along x, y and z.
#[derive(Clone, Copy, Debug, PartialEq, Eq)]
pub(crate) struct Normal {
    pub(crate) x: Area,
    pub(crate) y: Area,
    pub(crate) z: Area,
}

/// a − b
pub(crate) fn diff(a: Coordinate, b: Coordinate) -> Gap
    ensures { result.value ≡ a.value -ℤ b.value }
{
    Gap {
        value: i64::from(a.value) - i64::from(b.value),
    }
}

/// a b
#[tactic(auto, using(crate::proofs::Casts::casts, crate::proofs::Bounds::gaps_product, crate::proofs::Bounds::gaps_within))]
fn times(a: Gap, b: Gap) -> i64
    ensures value { result ≡ a.value · b.value }
    ensures small { unsigned_abs result ≤ 2 ^ 28 }
{
    a.value * b.value
}

/// a d − b c
pub(crate) fn det(a: Gap, b: Gap, c: Gap, d: Gap) -> Area
    ensures { result.value ≡ a.value · d.value -ℤ b.value · c.value }
{
    Area {
        value: (times(a, d) - times(b, c)) as i32,
    }
}

/// n d
#[tactic(auto, using(crate::proofs::Casts::casts, crate::proofs::Bounds::scaled_product, crate::proofs::Bounds::scaled_within))]
fn scaled(n: Area, d: Gap) -> i64
    ensures value { result ≡ n.value · d.value }
    ensures small { unsigned_abs result ≤ 2 ^ 43 }
{
    i64::from(n.value) * d.value
}

/// n · d
pub(crate) fn dot(n: Normal, d: Gaps) -> i64
    ensures value { result ≡ n.x.value · d.x.value +ℤ n.y.value · d.y.value +ℤ n.z.value · d.z.value }
    ensures small { unsigned_abs result ≤ 2 ^ 45 }
{
    scaled(n.x, d.x) + scaled(n.y, d.y) + scaled(n.z, d.z)
}
