//! What a leaf signs (RFC 8554 sections 4.5 and 5.4).

ghost use Rattle.std.specs.Prelude.{◌≡◌, ◌+◌, ◌*◌, ◌++◌, ◌<◌, ◌^◌, IsTrue, IfOk, OnOk};
ghost use Rattle.std.specs.Int.{w32, to_be_bytes};
ghost use Rattle.std.specs.List.{concat};
ghost use Rattle.sz_lms.specs.Bits.{digit};
ghost use Rattle.sz_lms_tree.specs.Kept.{IsKept};
ghost use Rattle.sz_lms_tree.specs.Tree.{is_height, is_width, chain_values, one_time_of, ots_of, path_of, sibling, signature_of};
ghost use Rattle.sz_lms_tree.specs.View.{tree_secret};

use crate::kept::node_place;
use crate::secrets::{Secret, chain_value, randomizer};
use std::alloc::Global;
use sz_base::OutOfMemory;
use sz_lms::{digit, message_digest, signed_bytes};

// Puts each chain of leaf `q` last, as far along as its digit says.
fn append_chains(
    out: &mut Vec<u8>,
    secret: &Secret,
    q: u32,
    signed: &[u8; 34],
) -> Result<(), OutOfMemory>
    requires { IsTrue (is_width secret.now.width) }
    ensures { OnOk result
        (out.new.items
        ≡ out.old.items ++ concat (chain_values (tree_secret secret.now) q (digit secret.now.width signed.now))) }
{
    let kind = secret.one_time_type();
    for i in 0..kind.chains() {
        let steps = digit(kind, signed, i);
        out.extend_from_slice(&chain_value(secret, q, i, steps))?;
    }
    Ok(())
}

// The number of the other child of the node above node `r`.
fn sibling_of(r: u32) -> u32
    ensures { result ≡ sibling r }
{
    r ^ 1
}

// Puts 32 bytes last.
fn append_value(out: &mut Vec<u8>, value: &[u8; 32]) -> Result<(), OutOfMemory>
    ensures { OnOk result (out.new.items ≡ out.old.items ++ value.now) }
{
    out.extend_from_slice(value)?;
    Ok(())
}

// Puts the path of leaf `q` last: the sibling on each level, from the leaf's upwards.
#[tactic(auto, unfolding(crate::specs::Tree::path_of))]
fn append_path(
    out: &mut Vec<u8>,
    secret: &Secret,
    nodes: &[[u8; 32]],
    q: u32,
) -> Result<(), OutOfMemory>
    requires kept { IsKept (tree_secret secret.now) nodes.now }
    requires is_leaf { q < 2 ^ secret.now.height }
    ensures { OnOk result (out.new.items ≡ out.old.items ++ concat (path_of (tree_secret secret.now) q)) }
{
    let mut r = secret.leaf_count() + q;
    for _ in 0..secret.height {
        append_value(out, &nodes[node_place(secret, sibling_of(r))])?;
        r /= 2;
    }
    Ok(())
}

// How long a signature of the tree is: q, a one-time signature, a type and a path (RFC 8554 section 5.4).
fn signature_length(secret: &Secret) -> usize
    requires height { IsTrue (is_height secret.now.height) }
    requires width { IsTrue (is_width secret.now.width) }
    ensures { result ≡ 44 + 32 * ((ots_of secret.now.width).chains + secret.now.height) }
{
    let values = 1 + usize::from(secret.one_time_type().chains()) + usize::from(secret.height);
    4 + 4 + 32 * values + 4
}

// Puts a number last, in four bytes.
fn append_number(out: &mut Vec<u8>, number: u32) -> Result<(), OutOfMemory>
    ensures { OnOk result (out.new.items ≡ out.old.items ++ to_be_bytes w32 number) }
{
    out.extend_from_slice(&number.to_be_bytes())?;
    Ok(())
}

// Puts what the one-time key of leaf `q` signs the message with last (RFC 8554 section 4.5).
fn append_one_time(
    out: &mut Vec<u8>,
    secret: &Secret,
    q: u32,
    message: &[u8],
) -> Result<(), OutOfMemory>
    requires { IsTrue (is_width secret.now.width) }
    ensures { OnOk result (out.new.items ≡ out.old.items ++ one_time_of (tree_secret secret.now) q message.now) }
{
    let randomizer = randomizer(secret, q);
    let digest = message_digest(&secret.id, q, &randomizer, message);
    let signed = signed_bytes(secret.one_time_type(), &digest);
    append_number(out, secret.one_time_code())?;
    append_value(out, &randomizer)?;
    append_chains(out, secret, q, &signed)
}

/// What leaf `q` signs the message with (RFC 8554 section 5.4), by the tree's kept nodes.
pub(crate) fn leaf_signature(
    alloc: Global,
    secret: &Secret,
    nodes: &[[u8; 32]],
    q: u32,
    message: &[u8],
) -> Result<Vec<u8>, OutOfMemory>
    requires kept { IsKept (tree_secret secret.now) nodes.now }
    requires is_leaf { q < 2 ^ secret.now.height }
    ensures { IfOk result (λ out. out.items ≡ signature_of (tree_secret secret.now) q message.now) }
{
    let mut out = Vec::with_capacity(alloc, signature_length(secret))?;
    append_number(&mut out, q)?;
    append_one_time(&mut out, secret, q, message)?;
    append_number(&mut out, secret.tree_code())?;
    append_path(&mut out, secret, nodes, q)?;
    Ok(out)
}
