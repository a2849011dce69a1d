//! Laws of requests and replies.

ghost use Rattle.std.specs.Prelude.{◌≡◌, ◌↔◌, ◌⊎◌, List, ℕ, None, Ok, Err, Result, IfOk, IfErr};
ghost use Rattle.serde_json.specs.Data.{Data};
ghost use Rattle.sz_base.specs.declared.evidence.Evidence.{Evidence};
ghost use Rattle.sz_http.specs.Parts.{Parts};
ghost use Rattle.sz_rest.specs.Asked.{Asks, IsRefused};
ghost use Rattle.sz_rest.specs.Reply.{FitsLimits, IsReplyFault, ReplyOf, RepliesWith, reply_fault};
ghost use Rattle.sz_rest.specs.ReplyText.{IsRefusal};
ghost use Rattle.sz_rest.specs.declared.asked.Asked.{Asked};
ghost use Rattle.sz_rest.specs.declared.fault.RestFault.{RestFault};
ghost use Rattle.sz_rest.specs.declared.fault.RestFault.TheVariants.{OutOfMemory};

/// A request asks for one thing, or is refused with one status, and never both. That status is one of a refusal.
pub fn requests_have_one_answer()
    ensures one_thing { (head : Parts) (body : List ℕ) (asked other : Asked) → Asks head body asked
        → Asks head body other → asked ≡ other }
    ensures one_status { (head : Parts) (body : List ℕ) (status other : ℕ) → IsRefused head body status
        → IsRefused head body other → status ≡ other }
    ensures never_both { (head : Parts) (body : List ℕ) (asked : Asked) (status : ℕ) → Asks head body asked
        → ¬ IsRefused head body status }
    ensures a_refusal { (head : Parts) (body : List ℕ) (status : ℕ) → IsRefused head body status → IsRefusal status }
{}

/// A value is that of a reply whose artifacts fit exactly where it has no fault, and then of one evidence alone.
pub fn faultless_values_are_replies()
    ensures exactly { (value : Data) → (reply_fault value ≡ None)
        ↔ ((evidence : Evidence) × RepliesWith value evidence × FitsLimits evidence) }
    ensures one_evidence { (value : Data) (evidence other : Evidence) → RepliesWith value evidence
        → RepliesWith value other → evidence ≡ other }
{}

/// A body with evidence that fits the limits is read as this evidence, unless memory runs out.
pub fn replies_read_back()
    ensures { (body : List ℕ) (evidence : Evidence) (answer : Result Evidence RestFault) → ReplyOf body evidence
        → FitsLimits evidence → IfOk answer (ReplyOf body) → IfErr answer (IsReplyFault 200 body)
        → (answer ≡ Ok evidence) ⊎ (answer ≡ Err OutOfMemory) }
{}
