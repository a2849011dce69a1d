//! The law of what a URI gives. It is the contract of a function that does nothing.

ghost use Rattle.std.specs.Prelude.{◌≡◌, List, ℕ};
ghost use Rattle.sz_uri.specs.Uri.{IsUri};
ghost use Rattle.sz_uri.specs.declared.uri.Uri.{Uri};

/// A text gives one URI at most.
pub fn uris_have_one_reading()
    ensures { (text : List ℕ) (uri other : Uri) → IsUri text uri → IsUri text other → uri ≡ other }
{}
