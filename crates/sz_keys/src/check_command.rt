//! The command `check PUBLIC FILE SIGNATURE`, which checks an HSS signature of a file of any length.
ghost use Rattle.sz_commands.specs.Objects.{folder_seen};
ghost use Rattle.sz_keys.specs.CheckRan.{CheckRan};
ghost use Rattle.sz_keys.specs.View.{answer_of, paths_of};

use crate::Checked;
use crate::pieces::check_file;
use std::alloc::Global;
use sz_base::Text;
use sz_commands::{Failure, input_size, read_front};
use sz_io::Folder;
use sz_lms::{HSS_PUBLIC_LENGTH, LONGEST_SIGNATURE};

/// The paths that a check names.
#[derive(Drop)]
pub struct CheckPaths {
    pub public: Text,
    pub file: Text,
    pub signature: Text,
}

/// Whether the signature is one of the file under the public key. The three are sought in this order. Of the public
/// key and the signature one byte more than the longest is read, which says whether they are longer. The file is read
/// in pieces and last. So memory grows with none of the three.
pub fn check<'a, F: Folder>(
    alloc: Global,
    paths: &'a CheckPaths,
    folder: &mut F,
) -> Result<Checked, Failure<'a>>
    ensures { CheckRan (paths_of paths.now) (folder_seen (F.faults folder.old) (F.files folder.old))
        (folder_seen (F.faults folder.new) (F.files folder.new)) (answer_of result) }
{
    let public = read_front(alloc, &paths.public, HSS_PUBLIC_LENGTH + 1, folder)?;
    let size = input_size(&paths.file, folder)?;
    let signature = read_front(alloc, &paths.signature, LONGEST_SIGNATURE + 1, folder)?;
    check_file(
        alloc,
        public.as_slice(),
        signature.as_slice(),
        &paths.file,
        size,
        folder,
    )
}
