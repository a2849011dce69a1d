//! What a walk over sources visits.

ghost use Rattle.std.specs.Prelude.{◌≡◌, IfOk};

use std::alloc::Global;
use sz_base::{OutOfMemory, Target, Text};

/// What is visited: a folder with artifacts, a file with a message that names servers, or a server.
#[derive(Debug, Drop)]
pub enum Item {
    /// The folder under this path.
    Folder(Text),
    /// The file under this path.
    File(Text),
    /// A bootstrap server.
    At(Target),
}

impl Item {
    /// An equal item.
    pub fn copy(&self, alloc: Global) -> Result<Self, OutOfMemory>
        ensures { IfOk result (λ copied. copied ≡ self.now) }
    {
        Ok(match self {
            Item::Folder(path) => Item::Folder(path.copy(alloc)?),
            Item::File(path) => Item::File(path.copy(alloc)?),
            Item::At(target) => Item::At(target.copy(alloc)?),
        })
    }
}
