//! The reader of onboarding information.

ghost use Rattle.std.specs.Prelude.{◌≡◌, Option, Some, None, Ok, IfOk, IfErr, IfSome, OnOk, option_and_then};
ghost use Rattle.std.specs.Option.{option_copied};
ghost use Rattle.serde_json.specs.Data.{Data};
ghost use Rattle.serde_json.specs.View.{view};
ghost use Rattle.sz_json.specs.Fault.{fault_of, first_inside, IsFault};
ghost use Rattle.sz_json.specs.Form.{object_of};
ghost use Rattle.sz_json.specs.Member.{optional};
ghost use Rattle.sz_json.specs.declared.name.Name.{Name};
ghost use Rattle.sz_artifacts.specs.Onboarding.{handling_of, handling_of_text, image_fault_where, information_fault, IsImageWhere, IsInformation, IsOnboarding, onboarding_fault};
ghost use Rattle.sz_artifacts.specs.WrittenInformation.{AreTexts, HasTexts};

use crate::conveyed::image::read_image;
use crate::{BootImage, Handling, Onboarding};
use std::alloc::Global;
use sz_json::{JsonFault, Name, Value, binary, member, object, required_object};

const BAD_HANDLING: JsonFault = JsonFault::Member {
    name: Name::ConfigurationHandling,
};

/// The onboarding information of a value.
#[tactic(auto, using(sz_json::proofs::Faults::outer_fault))]
pub(crate) fn read_onboarding(alloc: Global, value: &Value) -> Result<Onboarding, JsonFault>
    ensures ok { IfOk result (IsOnboarding (view value.now)) }
    ensures texts { IfOk result HasTexts }
    ensures refused { IfErr result (IsFault (onboarding_fault (view value.now))) }
{
    let information = required_object(value, Name::OnboardingInformation)?;
    inside(alloc, information)
}

#[tactic(auto, using(sz_json::proofs::Faults::first_fault))]
fn inside(alloc: Global, information: &Value) -> Result<Onboarding, JsonFault>
    ensures ok { IfOk result (IsInformation (view information.now)) }
    ensures texts { IfOk result HasTexts }
    ensures refused { IfErr result (IsFault (information_fault (view information.now))) }
{
    let image = boot_image(alloc, information)?;
    let named = handling(information)?;
    let pre = binary(alloc, information, Name::PreConfigurationScript)?;
    let configuration = binary(alloc, information, Name::Configuration)?;
    let post = binary(alloc, information, Name::PostConfigurationScript)?;
    Ok(Onboarding {
        image,
        handling: named.unwrap_or(Handling::Replace),
        pre,
        configuration,
        post,
    })
}

// the boot image, if there is one
#[tactic(auto, using(crate::proofs::Faultless::image_fault_none, sz_json::proofs::Faults::outer_fault))]
fn boot_image(alloc: Global, information: &Value) -> Result<Option<BootImage>, JsonFault>
    ensures ok { IfOk result (λ image. (found : Option Data)
        × (optional object_of Name.BootImage (view information.now) ≡ Ok found) × IsImageWhere found image) }
    ensures refused { IfErr result (IsFault (first_inside (optional object_of Name.BootImage (view information.now))
        image_fault_where)) }
    ensures faultless { OnOk result (first_inside (optional object_of Name.BootImage (view information.now))
        image_fault_where ≡ None) }
    ensures texts { IfOk result (λ image. IfSome image AreTexts) }
{
    match object(information, Name::BootImage)? {
        Some(value) => Ok(Some(read_image(alloc, value)?)),
        None => Ok(None),
    }
}

// how the configuration is taken, if the information says it
fn handling(information: &Value) -> Result<Option<Handling>, JsonFault>
    ensures ok { IfOk result (λ named. optional handling_of Name.ConfigurationHandling (view information.now)
        ≡ Ok named) }
    ensures refused { IfErr result (IsFault (fault_of (optional handling_of Name.ConfigurationHandling
        (view information.now)))) }
{
    let Some(member) = member(information, Name::ConfigurationHandling)? else {
        return Ok(None);
    };
    match in_text(member.as_str()) {
        Some(handling) => Ok(Some(handling)),
        None => Err(BAD_HANDLING),
    }
}

fn in_text(text: Option<&str>) -> Option<Handling>
    ensures { result ≡ option_and_then handling_of_text (option_copied text.entry) }
{
    let text = text?;
    if text == "merge" {
        Some(Handling::Merge)
    } else if text == "replace" {
        Some(Handling::Replace)
    } else {
        None
    }
}
