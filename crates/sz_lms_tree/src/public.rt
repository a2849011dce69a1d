//! The public key of a tree (RFC 8554 section 5.3).

ghost use Rattle.std.specs.Prelude.{◌≡◌, IsTrue};
ghost use Rattle.sz_lms.specs.Lms.{lms_public};
ghost use Rattle.sz_lms_tree.specs.Tree.{is_height, is_width, ots_code, public_of, tree_code};
ghost use Rattle.sz_lms_tree.specs.View.{tree_secret};

use crate::nodes::root;
use crate::secrets::Secret;

/// The public key of the secret's tree, which has this root: the codes of its two types, I and the root.
pub(crate) fn public_key(secret: &Secret, root: &[u8; 32]) -> [u8; 56]
    requires height { IsTrue (is_height secret.now.height) }
    requires width { IsTrue (is_width secret.now.width) }
    ensures { result ≡ lms_public (tree_code secret.now.height) (ots_code secret.now.width) secret.now.id root.now }
{
    let mut key = [0; 56];
    key[..4].copy_from_slice(&secret.tree_code().to_be_bytes());
    key[4..8].copy_from_slice(&secret.one_time_code().to_be_bytes());
    key[8..24].copy_from_slice(&secret.id);
    key[24..].copy_from_slice(root);
    key
}

/// The public key of the secret's tree, 56 bytes (RFC 8554 section 5.3). All leaves are computed for it, one after
/// another. Takes no memory.
pub fn public_of(secret: &Secret) -> [u8; 56]
    requires height { IsTrue (is_height secret.now.height) }
    requires width { IsTrue (is_width secret.now.width) }
    ensures { result ≡ public_of (tree_secret secret.now) }
{
    public_key(secret, &root(secret))
}
