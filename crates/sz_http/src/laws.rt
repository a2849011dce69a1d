//! The laws of verdicts. Each is the contract of a function that does nothing.

ghost use Rattle.std.specs.Prelude.{◌≡◌, ◌++◌, ℕ, Bool, false, List};
ghost use Rattle.sz_http.specs.declared.side.Side.{Side};
ghost use Rattle.sz_http.specs.Head.{EndsInsideTarget};
ghost use Rattle.sz_http.specs.Message.{kind_of};
ghost use Rattle.sz_http.specs.Verdict.{ComesToAnEnd, IsFinal, Outcome, Verdict, needs_more};

/// Once the verdict is a whole message or a fault, no further bytes change it, nor does the end of the stream; where
/// more is needed, the end of the stream makes it a whole message or `EndedEarly`.
pub fn verdicts_stand()
    ensures stands { (side : Side) (limit : ℕ) (bytes more : List ℕ) (ended : Bool) (verdict : Outcome)
        → IsFinal verdict → Verdict side limit bytes false verdict → Verdict side limit (bytes ++ more) ended verdict }
    ensures ends { (side : Side) (limit : ℕ) (bytes : List ℕ) → Verdict side limit bytes false needs_more
        → ComesToAnEnd side limit bytes }
{}

/// There is one verdict on bytes, but where they end inside a request's target: that is judged only at its end, so more
/// may be needed there of bytes of which no head can come.
pub fn verdicts_are_one()
    ensures { (side : Side) (limit : ℕ) (bytes : List ℕ) (ended : Bool) (verdict other : Outcome)
        → ¬ (EndsInsideTarget (kind_of side) bytes) → Verdict side limit bytes ended verdict
        → Verdict side limit bytes ended other → verdict ≡ other }
{}
