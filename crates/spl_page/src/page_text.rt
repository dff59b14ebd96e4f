//! The bytes of a page that is being written: space for the header, and the entries behind it.
ghost use Rattle.std.specs.Prelude.{◌≡◌, ◌-◌, ◌≤◌, [], ◌++◌, length, drop, replicate, vec_len, IfOk, OnOk, OnErr};

use crate::frame::HEAD_BYTES;
use spl_message::NoMemory;
use spl_port::{PAGE_BYTES, PageBytes};
use std::mem;

/// Allocates a page and leaves space for the header, if that is not done yet.
pub(crate) fn begin_page(out: &mut Vec<u8>) -> Result<(), NoMemory>
    ensures ok { OnOk result (16 ≤ length out.new.items) }
    ensures entries { drop 16 out.new.items ≡ drop 16 out.old.items }
{
    if out.len() < HEAD_BYTES {
        out.reserve_exact(PAGE_BYTES)?;
        out.resize(HEAD_BYTES, 0)?;
    }
    Ok(())
}

/// Appends an entry's bytes, behind the space for the header.
pub(crate) fn append_entry(
    out: &mut Vec<u8>,
    head: &[u8],
    key: &[u8],
    value: &[u8],
) -> Result<(), NoMemory>
    requires { length (head.now ++ (key.now ++ value.now)) ≤ 4096 }
    ensures ok { OnOk result (drop 16 out.new.items ≡ drop 16 out.old.items ++ (head.now ++ (key.now ++ value.now))) }
    ensures err { OnErr result (drop 16 out.new.items ≡ drop 16 out.old.items) }
{
    begin_page(out)?;
    append(out, head, key, value)
}

/// Appends these bytes, one after the other.
fn append(out: &mut Vec<u8>, head: &[u8], key: &[u8], value: &[u8]) -> Result<(), NoMemory>
    requires { length (head.now ++ (key.now ++ value.now)) ≤ 4096 }
    ensures ok { OnOk result (out.new.items ≡ out.old.items ++ (head.now ++ (key.now ++ value.now))) }
    ensures err { OnErr result (out.new.items ≡ out.old.items) }
{
    out.reserve(head.len() + key.len() + value.len())?;
    out.extend_from_slice(head)?;
    out.extend_from_slice(key)?;
    out.extend_from_slice(value)?;
    Ok(())
}

/// The page of this header and the entries, padded with zeros. It reuses the memory of the bytes.
pub(crate) fn finish_page(out: &mut Vec<u8>, head: &[u8; HEAD_BYTES]) -> Result<PageBytes, NoMemory>
    requires begun { 16 ≤ length out.old.items }
    requires fits { length out.old.items ≤ 4096 }
    ensures page { IfOk result (λ page. page ≡ head.now ++ (drop 16 out.old.items ++ replicate (4096 - vec_len out.old) 0)) }
    ensures ok { OnOk result (out.new.items ≡ []) }
    ensures err { OnErr result (out.new.items ≡ out.old.items) }
{
    out.resize(PAGE_BYTES, 0)?;
    put_front(out.as_mut_slice(), head);
    let alloc = *out.allocator();
    let bytes = mem::replace(out, Vec::new(alloc));
    Ok(PageBytes::from_vec(bytes))
}

/// Writes the header.
fn put_front(page: &mut [u8], head: &[u8; HEAD_BYTES])
    requires { 16 ≤ length page.old }
    ensures { page.new ≡ head.now ++ drop 16 page.old }
{
    page[..HEAD_BYTES].copy_from_slice(head);
}
