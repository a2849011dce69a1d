//! Laws of the forms: what has a text is read from it, a text has one reading, and a value has one text.

ghost use Rattle.std.specs.Prelude.{◌≡◌, ◌^◌, ◌<◌, ◌≤◌, List, ℕ, Result, Ok};
ghost use Rattle.std.specs.Fmt.{decimal};
ghost use Rattle.base64.specs.GeneralPurpose.{IsBytes};
ghost use Rattle.sz_base.specs.Encoding.{base64_text, IsBase64, IsColonHex};
ghost use Rattle.sz_base.specs.Host.{IsHost};
ghost use Rattle.sz_base.specs.Number.{IsNumber};
ghost use Rattle.sz_base.specs.Reading.{GivesUnlessMemory, ReadsText, ReadsValue};
ghost use Rattle.sz_base.specs.Serial.{IsSerial};
ghost use Rattle.sz_base.specs.Target.{target_text, IsTarget};
ghost use Rattle.sz_base.specs.declared.fault.BaseFault.{BaseFault};
ghost use Rattle.sz_base.specs.declared.target.Target.{Target};

/// The bytes of a serial number are read as that serial number, and a text has one reading.
pub fn serials_read_back()
    ensures again { (serial : List ℕ) (answer : Result (List ℕ) BaseFault) → IsSerial serial
        → ReadsText IsSerial serial answer → GivesUnlessMemory answer serial }
    ensures one_reading { (text a b : List ℕ) → ReadsText IsSerial text (Ok a) → ReadsText IsSerial text (Ok b)
        → a ≡ b }
{}

/// The bytes of a host are read as that host, and a text has one reading.
pub fn hosts_read_back()
    ensures again { (host : List ℕ) (answer : Result (List ℕ) BaseFault) → IsHost host
        → ReadsText IsHost host answer → GivesUnlessMemory answer host }
    ensures one_reading { (text a b : List ℕ) → ReadsText IsHost text (Ok a) → ReadsText IsHost text (Ok b) → a ≡ b }
{}

/// A text of a target is read as that target, a text has one reading, and each target has one text: the
/// host, a colon and the port in decimal.
pub fn targets_read_back()
    ensures again { (target : Target) (text : List ℕ) (answer : Result Target BaseFault) → IsTarget target text
        → ReadsValue (λ read. IsTarget read text) answer → GivesUnlessMemory answer target }
    ensures one_reading { (text : List ℕ) (a b : Target) → IsTarget a text → IsTarget b text → a ≡ b }
    ensures one_text { (target : Target) (text : List ℕ) → IsTarget target text → text ≡ target_text target }
    ensures spelled { (target : Target) → IsHost target.host → 1 ≤ target.port → target.port ≤ 65535
        → IsTarget target (target_text target) }
{}

/// A text stands for one number, and each number of 64 bits has one text: the one that `{}` writes.
pub fn numbers_read_back()
    ensures one_reading { (text : List ℕ) (m n : ℕ) → IsNumber text m → IsNumber text n → m ≡ n }
    ensures one_text { (n : ℕ) (text : List ℕ) → IsNumber text n → text ≡ decimal n }
    ensures spelled { (n : ℕ) → n < 2 ^ 64 → IsNumber (decimal n) n }
{}

/// A text of 32 pairs stands for one list of bytes.
pub fn pairs_read_once()
    ensures { (text a b : List ℕ) → IsColonHex text a → IsColonHex text b → a ≡ b }
{}

/// A base64 text stands for one list of bytes, and each list of bytes has one text.
pub fn base64_reads_back()
    ensures one_reading { (text a b : List ℕ) → IsBase64 text a → IsBase64 text b → a ≡ b }
    ensures one_text { (bytes text : List ℕ) → IsBase64 text bytes → text ≡ base64_text bytes }
    ensures spelled { (bytes : List ℕ) → IsBytes bytes → IsBase64 (base64_text bytes) bytes }
{}
