//! Laws of the forms.

ghost use Rattle.std.specs.Prelude.{◌≡◌, ◌↔◌, List, ℕ, Some};
ghost use Rattle.sz_base.specs.Encoding.{IsBase64};
ghost use Rattle.sz_base.specs.declared.moment.Seconds.{Seconds};
ghost use Rattle.sz_json.specs.Form.{base64_of, IsInstant, seconds_of};

/// The text of a member of bytes is base64 by RFC 4648 section 4: of these bytes, and of no others.
pub fn binary_is_base64()
    ensures { (text bytes : List ℕ) → (base64_of text ≡ Some bytes) ↔ IsBase64 text bytes }
{}

/// The second of a text that is a date and a time of day has a date in the calendar.
pub fn times_are_instants()
    ensures { (text : List ℕ) (seconds : Seconds) → seconds_of text ≡ Some seconds → IsInstant seconds }
{}
