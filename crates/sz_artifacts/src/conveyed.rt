//! Conveyed information, and its reader.

ghost use Rattle.std.specs.Prelude.{◌≡◌, Some, IfOk, IfErr};
ghost use Rattle.serde_json.specs.Data.{Data};
ghost use Rattle.serde_json.specs.View.{view};
ghost use Rattle.sz_json.specs.Bounded.{IsBoundedJson};
ghost use Rattle.sz_json.specs.Fault.{IsFault, IsTextFault};
ghost use Rattle.sz_artifacts.specs.Conveyed.{conveyed_fault, ConveyedOf, has_onboarding, IsConveyed, top_fault};
ghost use Rattle.sz_artifacts.specs.WrittenInformation.{IsWritable};

use crate::conveyed::information::read_onboarding;
use crate::conveyed::redirect::read_redirect;
use std::alloc::Global;
use sz_base::Targets;
use sz_json::{JsonFault, Name, Value};

mod image;
mod information;
mod laws;
mod onboarding;
mod redirect;
mod writing;

pub use laws::{addresses_are_hosts, faultless_values_are_information, hashes_are_pairs};
pub use onboarding::{BootImage, Handling, LONGEST_NAME, Onboarding};
pub use redirect::DEFAULT_PORT;
pub use writing::{write_onboarding, write_redirect};

/// Conveyed information (RFC 8572 section 2).
#[derive(Debug, Drop)]
pub enum Conveyed {
    /// The bootstrap servers to be asked next.
    Redirect(Targets),
    Onboarding(Onboarding),
}

impl Conveyed {
    /// Reads a content. `Member` exactly of the first member that is missing or of the wrong form, with the name `Json`
    /// where the content is no bounded JSON or has not exactly one of the two top members.
    pub fn read(alloc: Global, content: &[u8]) -> Result<Self, JsonFault>
        ensures ok { IfOk result (ConveyedOf content.now) }
        ensures writable { IfOk result IsWritable }
        ensures refused { IfErr result (IsTextFault conveyed_fault content.now) }
    {
        let value = sz_json::read_bounded(alloc, content)?;
        of_value(alloc, &value)
    }
}

/// The content has onboarding information for its one top member, whose parts are not read. `Member` with the name
/// `Json` exactly where the content is no bounded JSON or has not exactly one of the two top members.
pub fn is_onboarding(alloc: Global, content: &[u8]) -> Result<bool, JsonFault>
    ensures ok { IfOk result (λ onboarding. (value : Data) × IsBoundedJson content.now value
        × (has_onboarding value ≡ Some onboarding)) }
    ensures refused { IfErr result (IsTextFault top_fault content.now) }
{
    let value = sz_json::read_bounded(alloc, content)?;
    has_onboarding(&value)
}

fn of_value(alloc: Global, value: &Value) -> Result<Conveyed, JsonFault>
    ensures ok { IfOk result (IsConveyed (view value.now)) }
    ensures writable { IfOk result IsWritable }
    ensures refused { IfErr result (IsFault (conveyed_fault (view value.now))) }
{
    if has_onboarding(value)? {
        Ok(Conveyed::Onboarding(read_onboarding(alloc, value)?))
    } else {
        Ok(Conveyed::Redirect(read_redirect(alloc, value)?))
    }
}

fn has_onboarding(value: &Value) -> Result<bool, JsonFault>
    ensures ok { IfOk result (λ onboarding. has_onboarding (view value.now) ≡ Some onboarding) }
    ensures refused { IfErr result (IsFault (top_fault (view value.now))) }
{
    let redirect = value.get(Name::RedirectInformation.as_str());
    let onboarding = value.get(Name::OnboardingInformation.as_str());
    match (redirect, onboarding) {
        (Some(_), None) => Ok(false),
        (None, Some(_)) => Ok(true),
        _ => Err(JsonFault::Member { name: Name::Json }),
    }
}
