//! The law of the texts of sources. It is the contract of a function that does nothing.

ghost use Rattle.std.specs.Prelude.{◌≡◌, List, ℕ, Result};
ghost use Rattle.sz_base.specs.Reading.{GivesUnlessMemory, ReadsValue};
ghost use Rattle.sz_base.specs.declared.fault.BaseFault.{BaseFault};
ghost use Rattle.sz_source.specs.Source.{HasText, IsSource, source_text};
ghost use Rattle.sz_source.specs.declared.source.Source.{Source};

/// A text of a source is read as that source, a text has one reading, and each source has one text.
pub fn sources_read_back()
    ensures again { (source : Source) (text : List ℕ) (answer : Result Source BaseFault) → IsSource source text
        → ReadsValue (λ read. IsSource read text) answer → GivesUnlessMemory answer source }
    ensures one_reading { (text : List ℕ) (a b : Source) → IsSource a text → IsSource b text → a ≡ b }
    ensures one_text { (source : Source) (text : List ℕ) → IsSource source text → text ≡ source_text source }
    ensures spelled { (source : Source) → HasText source → IsSource source (source_text source) }
{}
