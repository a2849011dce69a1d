//! What the head of a reply says of an image, and why a reply that is refused gives none.

ghost use Rattle.std.specs.Prelude.{◌≡◌, ℕ, Bool, List, IfOk, IfErr};
ghost use Rattle.sz_http.specs.Head.{HasNoHead};
ghost use Rattle.sz_http.specs.Parts.{parts_of};
ghost use Rattle.sz_http.specs.declared.kind.Kind.TheVariants.{Reply as ReplyKind};
ghost use Rattle.sz_http.specs.Message.{BeginsWith};
ghost use Rattle.sz_http.specs.Reading.{Takes};
ghost use Rattle.sz_http.specs.Verdict.{Verdict, refused};
ghost use Rattle.sz_image.specs.Reply.{IsHeaded, IsRefused, size_told};

use sz_base::ImageFault;
use sz_http::{Framing, FramingFault, Head, HttpFault, Kind, Reading, Side};

/// The status of a reply that has what was asked for (RFC 9110 section 15.3.1).
const OK: u16 = 200;

/// How the head frames the body, if its status is 200. The head's own faults come before another status.
pub(crate) fn framing(head: &Head<'_>) -> Result<Framing, ImageFault>
    ensures ok { (bytes after : List ℕ) → BeginsWith Side.Reply bytes (parts_of head.now) after
        → IfOk result (IsHeaded bytes 200) }
    ensures refused { (space : ℕ) (hash bytes after : List ℕ) (closed : Bool)
        → BeginsWith Side.Reply bytes (parts_of head.now) after → IfErr result (IsRefused space hash bytes closed) }
{
    let framing = match Framing::of(Kind::Reply, &head.fields, u64::MAX) {
        Ok(framing) => framing,
        Err(FramingFault::Coding) => return Err(ImageFault::Coding),
        Err(_) => return Err(ImageFault::BadHttp),
    };
    if head.status == OK {
        Ok(framing)
    } else {
        Err(ImageFault::Status { code: head.status })
    }
}

/// Why there is no image for this space, once the reply is refused for this. A whole head comes before what is refused
/// behind it.
pub(crate) fn refusal(reading: &Reading, fault: HttpFault, space: u64) -> ImageFault
    ensures { (hash bytes body : List ℕ) (closed : Bool) → Takes reading.now Side.Reply space bytes closed body
        → Verdict Side.Reply space bytes closed (refused fault) → IsRefused space hash bytes closed result }
{
    match fault {
        HttpFault::BadHead => ImageFault::BadHttp,
        HttpFault::Coding => ImageFault::Coding,
        _ => match reading.head() {
            Some(head) => match framing(&head) {
                Ok(framing) => behind_head(fault, framing, space),
                Err(fault) => fault,
            },
            None => without_head(fault),
        },
    }
}

// Why there is no image, where the reply is refused behind a head with status 200.
fn behind_head(fault: HttpFault, framing: Framing, space: u64) -> ImageFault
    ensures { (hash bytes : List ℕ) (closed : Bool) → IsHeaded bytes 200 framing
        → Verdict Side.Reply space bytes closed (refused fault) → IsRefused space hash bytes closed result }
{
    match fault {
        HttpFault::BadHead | HttpFault::BadChunk => ImageFault::BadHttp,
        HttpFault::Coding => ImageFault::Coding,
        HttpFault::EndedEarly => ImageFault::EndedEarly,
        HttpFault::TooLarge { limit } => {
            if limit == space {
                ImageFault::ImageTooLarge {
                    size: told_size(framing, space),
                    area: space,
                }
            } else {
                ImageFault::HeadTooLarge
            }
        }
    }
}

// Why there is no image, where no head is whole.
fn without_head(fault: HttpFault) -> ImageFault
    ensures { (space : ℕ) (hash bytes : List ℕ) (closed : Bool) → HasNoHead ReplyKind bytes
        → Verdict Side.Reply space bytes closed (refused fault) → IsRefused space hash bytes closed result }
{
    match fault {
        HttpFault::BadHead | HttpFault::BadChunk => ImageFault::BadHttp,
        HttpFault::Coding => ImageFault::Coding,
        HttpFault::EndedEarly => ImageFault::EndedEarly,
        // a length is judged behind a head alone
        HttpFault::TooLarge { limit: _ } => ImageFault::HeadTooLarge,
    }
}

// How large an image that doesn't fit is: as its head declares, or one byte past the space.
fn told_size(framing: Framing, space: u64) -> u64
    ensures { result ≡ size_told framing space }
{
    match framing {
        Framing::Length(size) => size,
        _ => space.saturating_add(1),
    }
}
