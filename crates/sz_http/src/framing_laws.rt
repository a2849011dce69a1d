//! The law of framings. It is the contract of a function that does nothing.

ghost use Rattle.std.specs.Prelude.{◌≡◌, ℕ, Result};
ghost use Rattle.sz_http.specs.declared.kind.Kind.{Kind};
ghost use Rattle.sz_http.specs.declared.framing.Framing.{Framing};
ghost use Rattle.sz_http.specs.declared.framing.FramingFault.{FramingFault};
ghost use Rattle.sz_http.specs.Framing.{FieldList, Frames};

/// Fields frame a body in one way, or are refused for one fault.
pub fn fields_frame_once()
    ensures { (kind : Kind) (fields : FieldList) (limit : ℕ) (answer other : Result Framing FramingFault)
        → Frames kind fields limit answer → Frames kind fields limit other → answer ≡ other }
{}
