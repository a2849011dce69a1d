//! The law of what messages mean. It is the contract of a function that does nothing.

ghost use Rattle.std.specs.Prelude.{◌≡◌, List, ℕ};
ghost use Rattle.sz_base.specs.declared.target.Target.{Target};
ghost use Rattle.sz_dns.specs.Answer.{Gives, IsFault};
ghost use Rattle.sz_dns.specs.declared.fault.DnsKind.{DnsKind};

/// A message gives one list of targets for a domain, or has one first fault, and never both.
pub fn answers_have_one_reading()
    ensures one_list { (message domain : List ℕ) (targets others : List Target) → Gives message domain targets
        → Gives message domain others → targets ≡ others }
    ensures one_fault { (message domain : List ℕ) (kind other : DnsKind) (place at : ℕ)
        → IsFault message domain kind place → IsFault message domain other at → (kind ≡ other) × (place ≡ at) }
    ensures never_both { (message domain : List ℕ) (targets : List Target) (kind : DnsKind) (place : ℕ)
        → Gives message domain targets → ¬ (IsFault message domain kind place) }
{}
