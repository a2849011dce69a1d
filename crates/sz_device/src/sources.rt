//! The sources that words of the command line name.
ghost use Rattle.std.specs.Prelude.{◌≡◌, ◌≢◌, ◌∷◌, true, false, IfErr, IfOk, IsErrOf};
ghost use Rattle.sz_source.specs.declared.source.Source.{Source as AnySource};
ghost use Rattle.sz_device.specs.Sources.{IsInFileOf, IsSourceBeside, IsWhyUnread, NamesSources};

use std::alloc::Global;
use sz_base::{BaseFault, Text};
use sz_source::{MOST_SOURCES, Source, Sources, sources_read_back};

/// The sources of these words, in their order, beside the word of a disk. `Form` only where some word is no source, or
/// one whose message stands in the disk's file, or there are too many.
pub(crate) fn read_sources(alloc: Global, disk: &Text, words: &[Text]) -> Result<Sources, BaseFault>
    ensures named { IfOk result (NamesSources disk.now words.now) }
    ensures unread { IfErr result (IsWhyUnread disk.now words.now) }
{
    if words.len() > MOST_SOURCES {
        return Err(BaseFault::Form);
    }
    let mut sources = Sources::create(alloc);
    for word in words {
        sources.push(read_beside(alloc, disk, word)?)?;
    }
    Ok(sources)
}

// The source of a word, whose message stands beside the disk's file.
fn read_beside(alloc: Global, disk: &Text, word: &Text) -> Result<Source, BaseFault>
    ensures ok { IfOk result (λ source. IsSourceBeside disk.now source word.now) }
    ensures none { IsErrOf result BaseFault.Form → (source : AnySource) → ¬ (IsSourceBeside disk.now source word.now) }
{
    let source = Source::read(alloc, word.as_slice())?;
    sources_read_back();
    if is_in_file_of(disk.as_slice(), &source) {
        return Err(BaseFault::Form);
    }
    Ok(source)
}

// Whether the message of the source stands in the file of the disk that this word names.
fn is_in_file_of(disk: &[u8], source: &Source) -> bool
    ensures yes { result ≡ true → IsInFileOf disk.now source.now }
    ensures no { result ≡ false → ¬ (IsInFileOf disk.now source.now) }
{
    match source {
        Source::Dhcp4(path) | Source::Dhcp6(path) | Source::Dns { path, .. } => {
            is_file_of(disk, path.as_slice())
        }
        Source::Usb(_) | Source::Server(_) => false,
    }
}

// Whether this is the path of the file of the disk that this word names.
fn is_file_of(disk: &[u8], path: &[u8]) -> bool
    ensures yes { result ≡ true → disk.now ≡ 64 ∷ path.now }
    ensures no { result ≡ false → disk.now ≢ 64 ∷ path.now }
{
    match disk.split_first() {
        Some((b'@', file)) => file == path,
        _ => false,
    }
}
