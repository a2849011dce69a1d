//! The laws of chunked bodies. Each is the contract of a function that does nothing.

ghost use Rattle.std.specs.Prelude.{◌≡◌, ◌≤◌, List, length, ℕ};
ghost use Rattle.sz_http.specs.Chunked.{ReadsChunked, ReadsShort};
ghost use Rattle.sz_http.specs.ChunkPart.{IsPart};
ghost use Rattle.sz_http.specs.ChunkRefusal.{IsRefused};
ghost use Rattle.sz_http.specs.declared.chunk_fault.ChunkFault.{ChunkFault};

/// A text begins with at most one chunked body, which has one content, and with none where it is a part of one.
pub fn chunked_bodies_read_once()
    ensures one { (text content other rest left : List ℕ) → ReadsChunked text content rest
        → ReadsChunked text other left → (content ≡ other) × (rest ≡ left) }
    ensures never_both { (text content other rest : List ℕ) → IsPart text content → ¬ (ReadsChunked text other rest) }
{}

/// A text that is refused within a limit is refused for one fault, and is no body within it and no part of one.
pub fn refusals_are_one()
    ensures one { (limit : ℕ) (text : List ℕ) (fault other : ChunkFault) → IsRefused limit text fault
        → IsRefused limit text other → fault ≡ other }
    ensures no_part { (limit : ℕ) (text content : List ℕ) (fault : ChunkFault) → IsRefused limit text fault
        → IsPart text content → length content ≤ limit → ⊥ }
    ensures no_body { (limit : ℕ) (text content rest : List ℕ) (fault : ChunkFault) → IsRefused limit text fault
        → ReadsShort text content rest → length content ≤ limit → ⊥ }
{}
