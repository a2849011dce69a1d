//! Sources of bootstrapping data from their words, and the reasons for which they come to nothing.

use std::alloc::Global;
use std::test::Fail;
use sz_base::{Moment, Seconds};
use sz_evidence::Reason;
use sz_source::{Source, Sources};

/// 2025-01-01.
pub const NOW: Moment = Moment {
    time: Seconds(1_735_689_600),
    nonce: None,
};

/// Sources in the order of these words.
pub fn sources(alloc: Global, words: &[&[u8]]) -> Result<Sources, Fail> {
    let mut sources = Sources::create(alloc);
    for word in words {
        sources.push(Source::read(alloc, word)?)?;
    }
    Ok(sources)
}

/// Whether a reason has this number and this name.
pub fn is_reason(reason: &Reason, number: u8, name: &str) -> bool {
    reason.number() == number && reason.name() == name
}
