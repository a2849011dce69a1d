//! Levels read from their text, as `10/4,5/8`.

ghost use Rattle.std.specs.Prelude.{◌≡◌, ◌≢◌, ◌==◌, ◌<◌, ℕ, List, [], ◌∷◌, IsTrue, IfSome, IfNone, IfErr, length, map};
ghost use Rattle.std.specs.Fmt.{decimal};
ghost use Rattle.std.specs.List.{position};
ghost use Rattle.sz_base.specs.Reading.{ReadsValue};
ghost use Rattle.sz_base.specs.declared.fault.BaseFault.TheVariants.{Form};
ghost use Rattle.sz_hss.specs.Key.{Shape, AreLevels, is_shape};
ghost use Rattle.sz_hss.specs.LevelsText.{IsLevelsText, comma, parts_at, shape_text};
ghost use Rattle.sz_hss.specs.View.{shape_of, shapes_of};

use crate::level::{Level, Levels, MOST_LEVELS, is_shape};
use arrayvec::ArrayVec;
use sz_base::{BaseFault, number};

impl Levels {
    /// Reads levels from a text such as `10/4,5/8`: of each level the height and the width in decimal, from the top.
    /// `Form` exactly where the text isn't that of levels that a key may have. No other refusal comes, since no memory
    /// is taken.
    pub fn read(text: &[u8]) -> Result<Levels, BaseFault>
        ensures reads { ReadsValue (IsLevelsText text.now) result }
        ensures only_form { IfErr result (λ fault. fault ≡ Form) }
    {
        match read_levels(text) {
            Some(items) => Ok(Levels::of(items)),
            None => Err(BaseFault::Form),
        }
    }
}

// The levels of a text, from the top.
fn read_levels(text: &[u8]) -> Option<ArrayVec<Level, MOST_LEVELS>>
    ensures some { IfSome result (λ levels. map shape_text (shapes_of levels.items) ≡ parts_at comma text.now) }
    ensures allowed { IfSome result (λ levels. AreLevels (shapes_of levels.items)) }
    ensures none { IfNone result ((shapes : List Shape) → ¬ IsLevelsText text.now shapes) }
{
    let mut levels = ArrayVec::new();
    let mut rest = text;
    while let Some((first, behind)) = cut(rest, b',') {
        levels.try_push(read_level(first)?).ok()?;
        rest = behind;
    }
    levels.try_push(read_level(rest)?).ok()?;
    Some(levels)
}

// The level of a text such as `10/4`.
fn read_level(text: &[u8]) -> Option<Level>
    ensures some { IfSome result (λ level. text.now ≡ shape_text (shape_of level)) }
    ensures allowed { IfSome result (λ level. IsTrue (is_shape (shape_of level))) }
    ensures none { IfNone result ((shape : Shape) → IsTrue (is_shape shape) → text.now ≢ shape_text shape) }
{
    let (height, width) = cut(text, b'/')?;
    let level = Level {
        height: byte(height)?,
        width: byte(width)?,
    };
    if is_shape(&level) { Some(level) } else { None }
}

// The number below 256 that a text is in decimal.
fn byte(text: &[u8]) -> Option<u8>
    ensures some { IfSome result (λ n. text.now ≡ decimal n) }
    ensures none { IfNone result ((n : ℕ) → n < 256 → text.now ≢ decimal n) }
{
    u8::try_from(number(text)?).ok()
}

// What stands before the first such mark, and what behind it.
fn cut(text: &[u8], mark: u8) -> Option<(&[u8], &[u8])>
    ensures some { IfSome result (λ found. parts_at mark text.now ≡ found.0.now ∷ parts_at mark found.1.now) }
    ensures shorter { IfSome result (λ found. length found.1.now < length text.now) }
    ensures none { IfNone result (parts_at mark text.now ≡ text.now ∷ []) }
{
    let at = place(text, mark)?;
    Some((&text[..at], &text[at + 1..]))
}

// The place of the first such mark.
fn place(text: &[u8], mark: u8) -> Option<usize>
    ensures { result ≡ position (λ byte. byte == mark) text.now }
{
    text.iter().position(|byte| *byte == mark)
}
