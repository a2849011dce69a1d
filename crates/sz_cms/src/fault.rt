//! Why bytes are no message.

use sz_der::{PartFault, PartKind};

/// Why bytes are no message.
#[derive(Clone, Copy, Debug, PartialEq, Eq)]
pub enum InfoKind {
    /// An item breaks the rules of DER, or those of its type.
    Der,
    /// An item that reads is not the part that has to stand there, or stands behind the last one.
    Shape,
    /// There are more certificates, revocation lists or signers than are kept.
    TooMany {
        /// How many are kept.
        limit: u8,
    },
    /// A signed attribute that has to be there is missing, stands twice, or has not one value.
    Attribute,
}

impl PartKind for InfoKind {
    ghost use Rattle.sz_cms.specs.declared.fault.InfoKind.TheVariants.{Der};

    ghost BROKEN = { Der };

    const BROKEN: InfoKind = InfoKind::Der;
}

/// A fault, and where it is.
pub type InfoFault = PartFault<InfoKind>;
