//! Levels of trees.

ghost use Rattle.std.specs.Prelude.{◌≡◌, ◌≤◌, IsTrue, IfSome, IfNone, OnSome, length};
ghost use Rattle.std.specs.List.{list_all};
ghost use Rattle.sz_hss.specs.Key.{AreLevels, is_shape};
ghost use Rattle.sz_hss.specs.Leaf.{heights_of, leaves_below};
ghost use Rattle.sz_hss.specs.View.{shape_of, shapes_of};
ghost use Rattle.sz_lms_tree.specs.Tree.{is_height, is_width};

use arrayvec::ArrayVec;
use std::marker::Model;

/// The most levels that a key has.
pub(crate) const MOST_LEVELS: usize = 3;

/// A level of trees of a key.
#[derive(Clone, Copy, Debug, Default, PartialEq, Eq)]
pub struct Level {
    /// Each tree has 2 to the height leaves: 5, 10 or 15.
    pub height: u8,
    /// The bits of a digit of its one-time signatures: 1, 2, 4 or 8.
    pub width: u8,
}

/// The levels of a key, from the top: one to three of them. Contracts see them as the list of their shapes.
#[derive(Drop)]
pub struct Levels {
    items: ArrayVec<Level, MOST_LEVELS>,
}

impl Model for Levels {
    ghost use Rattle.std.specs.Prelude.{List};
    ghost use Rattle.sz_hss.specs.Key.{Shape, AreLevels};
    ghost use Rattle.sz_hss.specs.View.{shapes_of};

    ghost Value = { List Shape };

    ghost view = { λ levels. shapes_of levels.items.items };

    ghost invariant = { λ levels. AreLevels (shapes_of levels.items.items) };
}

impl Levels {
    /// These levels.
    pub(crate) fn of(items: ArrayVec<Level, MOST_LEVELS>) -> Levels
        requires { AreLevels (shapes_of items.items) }
        ensures { result ≡ shapes_of items.items }
    {
        Levels { items }
    }

    /// These levels, from the top, or `None` exactly where a key may not have them.
    pub fn from_slice(levels: &[Level]) -> Option<Levels>
        ensures some { IfSome result (λ made. made ≡ shapes_of levels.now) }
        ensures allowed { OnSome result (AreLevels (shapes_of levels.now)) }
        ensures none { IfNone result (¬ AreLevels (shapes_of levels.now)) }
    {
        if levels.is_empty() || levels.len() > MOST_LEVELS || !are_shapes(levels) {
            return None;
        }
        let mut items = ArrayVec::new();
        let Ok(()) = items.try_extend_from_slice(levels) else {
            unreachable!()
        };
        Some(Levels { items })
    }

    /// The levels, from the top.
    pub fn as_slice(&self) -> &[Level]
        ensures shapes { shapes_of result.now ≡ self.now }
        ensures allowed { AreLevels self.now }
    {
        self.items.as_slice()
    }

    /// Equal levels.
    pub fn copy(&self) -> Levels
        ensures { result ≡ self.now }
    {
        let mut items = ArrayVec::new();
        let Ok(()) = items.try_extend_from_slice(self.as_slice()) else {
            unreachable!()
        };
        Levels { items }
    }
}

/// Trees of this height exist.
pub(crate) fn is_height(height: u8) -> bool
    ensures { result ≡ is_height height }
{
    height == 5 || height == 10 || height == 15
}

/// One-time signatures of this width exist.
pub(crate) fn is_width(width: u8) -> bool
    ensures { result ≡ is_width width }
{
    width == 1 || width == 2 || width == 4 || width == 8
}

/// Trees of this shape exist.
pub(crate) fn is_shape(level: &Level) -> bool
    ensures { result ≡ is_shape (shape_of level.now) }
{
    is_height(level.height) && is_width(level.width)
}

// Trees of all these shapes exist.
fn are_shapes(levels: &[Level]) -> bool
    ensures { result ≡ list_all (λ level. is_shape (shape_of level)) levels.now }
{
    levels.iter().all(|level| is_shape(level))
}

/// The heights of levels together.
pub(crate) fn heights_of(levels: &[Level]) -> u32
    requires few { length levels.now ≤ MOST_LEVELS }
    requires allowed { IsTrue (list_all is_shape (shapes_of levels.now)) }
    ensures sum { result ≡ heights_of (shapes_of levels.now) }
    ensures small { result ≤ 45 }
{
    let mut heights = 0;
    for level in levels {
        heights += u32::from(level.height);
    }
    heights
}

/// How many leaf numbers the levels of a key have: 2 to the sum of their heights.
pub(crate) fn leaves_of(levels: &[Level]) -> u64
    requires { AreLevels (shapes_of levels.now) }
    ensures { result ≡ leaves_below (shapes_of levels.now) }
{
    1 << heights_of(levels)
}
