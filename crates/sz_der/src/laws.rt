//! Laws of the definitions that the contracts cite. Each is the contract of a function that does nothing.

ghost use Rattle.std.specs.Prelude.{◌≡◌, ◌↔◌, ◌+◌, ◌-◌, ℕ, List, [], ◌++◌, length, pos, take, None};
ghost use Rattle.sz_der.specs.Der.{Der, StandsAt, AreOctets};
ghost use Rattle.sz_der.specs.Fault.{fault_at, fault_of};
ghost use Rattle.sz_der.specs.Integer.{IsIntegerOf};
ghost use Rattle.sz_der.specs.Items.{AppendsItems, AreItems, BeginsWith, ReadAs};
ghost use Rattle.sz_der.specs.Nested.{EndsAt};

/// Items are told apart: a string is an item of one tag and one content, one tag and content have one string,
/// and no item is a proper beginning of another.
pub fn items_are_apart()
    ensures one_reading { (tag other_tag : ℕ) (content other_content whole : List ℕ)
        → Der tag content whole → Der other_tag other_content whole
        → (tag ≡ other_tag) × (content ≡ other_content) }
    ensures one_string { (tag : ℕ) (content whole other : List ℕ) → Der tag content whole → Der tag content other
        → whole ≡ other }
    ensures no_beginning { (tag other_tag : ℕ) (content other_content whole more : List ℕ)
        → Der tag content whole → Der other_tag other_content (whole ++ more) → more ≡ [] }
{}

/// A number from 0 on has one content as an INTEGER.
pub fn integers_have_one_content()
    ensures { (n : ℕ) (content other : List ℕ) → IsIntegerOf (pos n) content → IsIntegerOf (pos n) other
        → content ≡ other }
{}

/// At a place of octets there is no fault exactly where an item stands.
pub fn fault_or_item()
    ensures place { (bytes : List ℕ) (place : ℕ) → AreOctets bytes
        → ((fault_at bytes place ≡ None) ↔ ((tag : ℕ) × (content : List ℕ) × (whole : List ℕ)
        × StandsAt bytes place tag content whole)) }
    ensures front { (bytes : List ℕ) → AreOctets bytes
        → ((fault_of bytes ≡ None) ↔ ((tag : ℕ) × (content : List ℕ) × (whole : List ℕ) × (rest : List ℕ)
        × BeginsWith bytes tag content whole rest)) }
{}

/// What is written, item after item, reads as these items and no others, and whatever reads as a list of
/// items is what is written for it: their strings, joined.
pub fn written_is_read()
    ensures read { (bytes : List ℕ) (items : List (ℕ × List ℕ)) → AppendsItems [] bytes items
        → ReadAs bytes 0 items }
    ensures written { (bytes : List ℕ) (items : List (ℕ × List ℕ)) → ReadAs bytes 0 items
        → AppendsItems [] bytes items }
    ensures joined { (bytes : List ℕ) (items : List (ℕ × List ℕ)) → ReadAs bytes 0 items ↔ AreItems bytes items }
    ensures no_others { (bytes : List ℕ) (items others : List (ℕ × List ℕ))
        → ReadAs bytes 0 items → ReadAs bytes 0 others → items ≡ others }
    ensures one_string { (bytes others : List ℕ) (items : List (ℕ × List ℕ))
        → AreItems bytes items → AreItems others items → bytes ≡ others }
{}

/// A content, or what is left of it, is read alone as it is in the bytes up to its end, with places and faults
/// shifted; and what stands at its front stands there in all the bytes.
pub fn contents_are_parts()
    ensures faults { (bytes part : List ℕ) (after place : ℕ) → EndsAt bytes after part
        → fault_at part place ≡ fault_at (take after bytes) (after - length part + place) }
    ensures items { (bytes part : List ℕ) (after place tag : ℕ) (content whole : List ℕ) → EndsAt bytes after part
        → (StandsAt part place tag content whole
        ↔ StandsAt (take after bytes) (after - length part + place) tag content whole) }
    ensures front { (bytes part rest : List ℕ) (after tag : ℕ) (content whole : List ℕ) → EndsAt bytes after part
        → BeginsWith part tag content whole rest → StandsAt bytes (after - length part) tag content whole }
    ensures rest { (bytes part rest : List ℕ) (after tag : ℕ) (content whole : List ℕ) → EndsAt bytes after part
        → BeginsWith part tag content whole rest → EndsAt bytes after rest }
    ensures inner { (bytes part rest : List ℕ) (after tag : ℕ) (content whole : List ℕ) → EndsAt bytes after part
        → BeginsWith part tag content whole rest → EndsAt bytes (after - length rest) content }
{}
