//! The artifacts of RFC 8572 section 3 that are JSON: vouchers (RFC 8366), and conveyed information, which is a
//! redirect to bootstrap servers or onboarding information (RFC 8572 sections 2 and 6.3). What a content means, and
//! its first member at fault, are definitions over the content's JSON value; the readers answer exactly by them, what
//! the writers write reads back, and a voucher is judged by its definition too.
#![tactic(auto)]

mod conveyed;
mod voucher;

pub use conveyed::{
    BootImage, Conveyed, DEFAULT_PORT, Handling, LONGEST_NAME, Onboarding, addresses_are_hosts,
    faultless_values_are_information, hashes_are_pairs, is_onboarding, write_onboarding,
    write_redirect,
};
pub use voucher::{
    Assertion, LONGEST_NONCE, SHORTEST_NONCE, Voucher, VoucherFault, faultless_values_are_vouchers,
    judge, judged_vouchers_fit, nonces_have_their_moment, write_voucher,
};
