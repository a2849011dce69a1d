//! The laws of what messages mean. Each is the contract of a function that does nothing.

ghost use Rattle.std.specs.Prelude.{◌≡◌, List, ℕ};
ghost use Rattle.sz_base.specs.declared.target.Target.{Target};
ghost use Rattle.sz_dhcp.specs.Message4.{Gives4, IsFault4};
ghost use Rattle.sz_dhcp.specs.Message6.{Gives6, IsFault6};
ghost use Rattle.sz_dhcp.specs.declared.fault.DhcpKind.{DhcpKind};

/// A DHCPv4 message gives one list of targets, or has one first fault, and never both.
pub fn messages4_have_one_reading()
    ensures one_list { (message : List ℕ) (targets others : List Target) → Gives4 message targets
        → Gives4 message others → targets ≡ others }
    ensures one_fault { (message : List ℕ) (kind other : DhcpKind) (place at : ℕ) → IsFault4 message kind place
        → IsFault4 message other at → (kind ≡ other) × (place ≡ at) }
    ensures never_both { (message : List ℕ) (targets : List Target) (kind : DhcpKind) (place : ℕ)
        → Gives4 message targets → ¬ (IsFault4 message kind place) }
{}

/// A DHCPv6 message gives one list of targets, or has one first fault, and never both.
pub fn messages6_have_one_reading()
    ensures one_list { (message : List ℕ) (targets others : List Target) → Gives6 message targets
        → Gives6 message others → targets ≡ others }
    ensures one_fault { (message : List ℕ) (kind other : DhcpKind) (place at : ℕ) → IsFault6 message kind place
        → IsFault6 message other at → (kind ≡ other) × (place ≡ at) }
    ensures never_both { (message : List ℕ) (targets : List Target) (kind : DhcpKind) (place : ℕ)
        → Gives6 message targets → ¬ (IsFault6 message kind place) }
{}
