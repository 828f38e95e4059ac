//! The side of the box.

ghost use Rattle.std.specs.Prelude.{◌≡◌, true};
ghost use Rattle.refusals.specs.BoxSides.{Made, cells_of};
ghost use Rattle.refusals.specs.Sides.{is_side};

use crate::Refusal;

/// How many cells the box has along each axis: 2, 4, 8, 16, 32 or 64.
#[derive(Clone, Copy, Debug, PartialEq, Eq)]
pub enum BoxSide {
    Two,
    Four,
    Eight,
    Sixteen,
    ThirtyTwo,
    SixtyFour,
}

impl TryFrom<i32> for BoxSide {
    type Error = Refusal;

    ghost try_from_gives = { Made };

    /// The side of `n` cells, or refusal 2 where `n` is not one of the six.
    fn try_from(n: i32) -> Result<BoxSide, Refusal> {
        match n {
            2 => Ok(BoxSide::Two),
            4 => Ok(BoxSide::Four),
            8 => Ok(BoxSide::Eight),
            16 => Ok(BoxSide::Sixteen),
            32 => Ok(BoxSide::ThirtyTwo),
            64 => Ok(BoxSide::SixtyFour),
            _ => Err(Refusal::OddSide { line: None }),
        }
    }
}

impl BoxSide {
    /// How many cells the side has.
    pub fn cells(self) -> usize
        ensures number { result ≡ cells_of self }
        ensures one_of_six { is_side result ≡ true }
    {
        match self {
            BoxSide::Two => 2,
            BoxSide::Four => 4,
            BoxSide::Eight => 8,
            BoxSide::Sixteen => 16,
            BoxSide::ThirtyTwo => 32,
            BoxSide::SixtyFour => 64,
        }
    }
}
