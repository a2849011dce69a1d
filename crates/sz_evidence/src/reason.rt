//! Why a visit of a source comes to nothing.

use sz_base::ImageFaults;
use sz_chain::ChainFault;
use sz_json::Name;

/// What is not there.
#[derive(Clone, Copy, Debug, PartialEq, Eq)]
pub enum What {
    /// A file with a DHCP or DNS message.
    File,
    /// The conveyed information.
    Conveyed,
    /// The ownership voucher beside signed information.
    Voucher,
}

/// An artifact of the evidence (RFC 8572 section 3).
#[derive(Clone, Copy, Debug, PartialEq, Eq)]
pub enum Artifact {
    /// The conveyed information.
    Conveyed,
    /// The owner certificate.
    Owner,
    /// The ownership voucher.
    Voucher,
}

/// Why a visit of a source comes to nothing. Each has a number and a name, which it shows.
#[derive(Debug, Drop)]
pub enum Reason {
    /// The visit's own exchange was lost, or the folder failed.
    Lost,
    /// Something has to be there and is not.
    Absent {
        what: What,
    },
    /// The reply ended before its end was told.
    EndedEarly,
    /// The reply is no HTTP message.
    BadHttp,
    /// The reply has a coding that is not read.
    Coding,
    /// A file or an artifact has more than `limit` bytes.
    TooLarge {
        limit: u64,
    },
    /// The reply has a status other than 200.
    Status {
        code: u16,
    },
    /// The DHCP message is at fault at this byte.
    BadOption {
        place: usize,
    },
    /// The DNS message is at fault at this byte.
    BadName {
        place: usize,
    },
    /// The artifact breaks the rules of DER at this byte.
    BadDer {
        artifact: Artifact,
        place: usize,
    },
    /// The artifact is not the message that has to be there.
    BadCms {
        artifact: Artifact,
    },
    /// The conveyed information is XML.
    XmlContent,
    /// The conveyed information is encrypted.
    Encrypted,
    /// Onboarding information is not signed.
    Unsigned,
    /// No chain of certificates leads to a signer of the artifact.
    NoChain {
        artifact: Artifact,
        fault: ChainFault,
    },
    /// The member of this name is missing or of the wrong form; `Json` where the text is no JSON. The pinned
    /// certificate is at fault under its name where it does not read.
    Member {
        name: Name,
    },
    /// The voucher is for another serial number.
    WrongSerial,
    /// The voucher has a nonce, and the moment has none or another one.
    Nonce,
    /// The moment is after the voucher's end.
    Expired,
    /// An image is needed, and no SHA-256 digest is named.
    NoImageHash,
    /// No URI gave the image: one fault for each.
    NoImage {
        faults: ImageFaults,
    },
    /// What would be stored has so many bytes, which do not fit.
    RecordTooLarge {
        size: u64,
    },
    /// A redirect after ten others.
    Depth,
    /// The source was visited as often as it may be.
    BudgetSpent,
}

impl Reason {
    ghost use Rattle.std.specs.Prelude.{◌≡◌};
    ghost use Rattle.sz_evidence.specs.Reason.{name_of, number_of};

    /// Its number, from 1 to 25; 20 stands for none.
    pub fn number(&self) -> u8
        ensures { result ≡ number_of self.now }
    {
        self.row().0
    }

    /// Its name.
    pub fn name(&self) -> &'static str
        ensures { result.now ≡ name_of self.now }
    {
        self.row().1
    }

    // its number and its name
    fn row(&self) -> (u8, &'static str)
        ensures number { result.0 ≡ number_of self.now }
        ensures name { result.1.now ≡ name_of self.now }
    {
        match self {
            Reason::Lost => (1, "Lost"),
            Reason::Absent { .. } => (2, "Absent"),
            Reason::EndedEarly => (3, "EndedEarly"),
            Reason::BadHttp => (4, "BadHttp"),
            Reason::Coding => (5, "Coding"),
            Reason::TooLarge { .. } => (6, "TooLarge"),
            Reason::Status { .. } => (7, "Status"),
            Reason::BadOption { .. } => (8, "BadOption"),
            Reason::BadName { .. } => (9, "BadName"),
            Reason::BadDer { .. } => (10, "BadDer"),
            Reason::BadCms { .. } => (11, "BadCms"),
            Reason::XmlContent => (12, "XmlContent"),
            Reason::Encrypted => (13, "Encrypted"),
            Reason::Unsigned => (14, "Unsigned"),
            Reason::NoChain { .. } => (15, "NoChain"),
            Reason::Member { .. } => (16, "Member"),
            Reason::WrongSerial => (17, "WrongSerial"),
            Reason::Nonce => (18, "Nonce"),
            Reason::Expired => (19, "Expired"),
            Reason::NoImageHash => (21, "NoImageHash"),
            Reason::NoImage { .. } => (22, "NoImage"),
            Reason::RecordTooLarge { .. } => (23, "RecordTooLarge"),
            Reason::Depth => (24, "Depth"),
            Reason::BudgetSpent => (25, "BudgetSpent"),
        }
    }
}
