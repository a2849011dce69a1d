//! Laws of vouchers.

ghost use Rattle.std.specs.Prelude.{◌≡◌, ◌↔◌, List, ℕ, None, Some, Ok, Err};
ghost use Rattle.serde_json.specs.Data.{Data};
ghost use Rattle.sz_base.specs.declared.moment.Moment.{Moment};
ghost use Rattle.sz_artifacts.specs.Vouching.{VouchesFor, judgement, without_nonce};
ghost use Rattle.sz_artifacts.specs.Voucher.{IsVoucher, voucher_fault};
ghost use Rattle.sz_artifacts.specs.declared.voucher.Voucher.{Voucher};
ghost use Rattle.sz_artifacts.specs.declared.voucher.judgement.VoucherFault.{VoucherFault};

/// A voucher is judged without a fault exactly where it fits the device and the moment.
pub fn judged_vouchers_fit()
    ensures { (voucher : Voucher) (serial : List ℕ) (when : Moment)
        → (judgement voucher serial when ≡ Ok tt) ↔ VouchesFor voucher serial when }
{}

/// A voucher with a nonce fits exactly where the moment has this nonce and the voucher would fit without one. At a
/// moment with another nonce or none, the nonce is its fault, where the serial number isn't.
pub fn nonces_have_their_moment()
    ensures exactly { (voucher : Voucher) (serial : List ℕ) (when : Moment) (nonce : List ℕ)
        → voucher.nonce ≡ Some nonce → VouchesFor voucher serial when
        ↔ ((when.nonce ≡ Some nonce) × VouchesFor (without_nonce voucher) serial when) }
    ensures refused { (voucher : Voucher) (serial : List ℕ) (when : Moment) (nonce : List ℕ)
        → voucher.nonce ≡ Some nonce → ¬ (when.nonce ≡ Some nonce) → voucher.serial ≡ serial
        → judgement voucher serial when ≡ Err VoucherFault.Nonce }
{}

/// A value is read as a voucher exactly where none of its members is at fault, and then as one alone.
pub fn faultless_values_are_vouchers()
    ensures exactly { (value : Data) → (voucher_fault value ≡ None) ↔ ((voucher : Voucher) × IsVoucher value voucher) }
    ensures one_voucher { (value : Data) (voucher other : Voucher) → IsVoucher value voucher → IsVoucher value other
        → voucher ≡ other }
{}
