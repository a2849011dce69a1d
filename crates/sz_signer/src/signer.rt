//! The signer, and what it shows.

ghost use Rattle.std.specs.Prelude.{◌≡◌};
ghost use Rattle.sz_hss.specs.Signature.{hss_public_of};

use std::marker::Model;
use sz_cell::Ready;
use sz_hss::Trees;

/// A signer of the key on a disk. The disk stands beside it, and is handed to the calls that use it. Contracts see the
/// stored key and what its cell keeps.
#[derive(Drop)]
pub struct Signer {
    pub(crate) trees: Trees,
    pub(crate) next: u64,
    pub(crate) end: u64,
    pub(crate) cell: Option<Ready>,
}

impl Model for Signer {
    ghost use Rattle.sz_hss.specs.Stored.{IsStorable};
    ghost use Rattle.sz_signer.specs.State.{IsKeyCell, SignerState};

    ghost Value = { SignerState };

    ghost view = { λ signer. record {
      stored = record { key = signer.trees; next = signer.next; end = signer.end };
      cell = signer.cell;
    } };

    ghost invariant = { λ signer.
        IsStorable (record { key = signer.trees; next = signer.next; end = signer.end }) × IsKeyCell signer.cell };
}

impl Signer {
    /// The HSS public key, 60 bytes.
    pub fn public(&self) -> [u8; 60]
        ensures { result ≡ hss_public_of self.now.stored.key }
    {
        self.trees.public()
    }

    /// The first leaf number that is not handed out.
    pub fn next_leaf(&self) -> u64
        ensures { result ≡ self.now.stored.next }
    {
        self.next
    }

    /// The first leaf number that there is not.
    pub fn end(&self) -> u64
        ensures { result ≡ self.now.stored.end }
    {
        self.end
    }
}
