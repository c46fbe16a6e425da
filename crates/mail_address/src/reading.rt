//! Reads the addresses of an address list.
//! Allocates.
ghost use Rattle.std.specs.Prelude.{◌≡◌, ◌++◌, ◌∷◌, [], IfOk, OnOk};
ghost use Rattle.mail_address.specs.Addresses.{addresses_of, told_by, mailbox_in, mailbox_with, group_start, group_end, mailbox_of, host_of, without_route as without_route_of};
ghost use Rattle.mail_address.specs.Splits.{part_after, split_last, is_this};

use crate::address::{Address, AddressKind, Addresses};
use crate::items::{Ending, Item, first_item, parts_of};
use crate::words::{address_text, name_text};
use arch_base::{Bytes, NoMemory};
use memchr::memrchr;
use std::alloc::Global;

/// Returns the mailboxes and groups of an address list, in order (RFC 5322, section 3.4).
///
/// `value` is a flat value: a field's value, or several joined by `, `, without line ends and tabs.
/// Every value is read, and the only error is `NoMemory`.
pub fn list(alloc: Global, value: &[u8]) -> Result<Addresses, NoMemory>
    ensures { IfOk result (λ found. found ≡ addresses_of value.now) }
{
    let mut addresses = Addresses::new(alloc);
    let mut rest = value;
    let mut grouped = false;
    while let Some(item) = first_item(rest, grouped) {
        push_item(alloc, &mut addresses, item.bytes, item.ending, grouped)?;
        grouped = item.ending.is_grouped_after(grouped);
        rest = item.rest;
    }
    push_item(alloc, &mut addresses, rest, Ending::Semicolon, grouped)?;
    Ok(addresses)
}

/// Appends the addresses of an item.
fn push_item(
    alloc: Global,
    addresses: &mut Addresses,
    item: &[u8],
    ending: Ending,
    grouped: bool,
) -> Result<(), NoMemory>
    ensures { OnOk result (addresses.new ≡ addresses.old ++ told_by grouped item.now ending) }
{
    match ending {
        Ending::Comma => push_mailbox(alloc, addresses, item),
        Ending::Colon => push_start(alloc, addresses, item),
        Ending::Semicolon => {
            push_mailbox(alloc, addresses, item)?;
            push_end(alloc, addresses, grouped)
        }
    }
}

/// Appends the start of a group.
fn push_start(alloc: Global, addresses: &mut Addresses, item: &[u8]) -> Result<(), NoMemory>
    ensures { OnOk result (addresses.new ≡ addresses.old ++ group_start item.now ∷ []) }
{
    addresses.push(Address {
        kind: AddressKind::GroupStart,
        name: name_text(alloc, item)?,
        mailbox: Bytes::new(alloc),
        host: Bytes::new(alloc),
    })
}

/// Appends the end of a group if a group is open.
fn push_end(alloc: Global, addresses: &mut Addresses, grouped: bool) -> Result<(), NoMemory>
    ensures { OnOk result (addresses.new ≡ addresses.old ++ group_end grouped) }
{
    if !grouped {
        return Ok(());
    }
    addresses.push(Address {
        kind: AddressKind::GroupEnd,
        name: Bytes::new(alloc),
        mailbox: Bytes::new(alloc),
        host: Bytes::new(alloc),
    })
}

/// Appends the mailbox of an item, unless its name and its address are empty.
fn push_mailbox(alloc: Global, addresses: &mut Addresses, item: &[u8]) -> Result<(), NoMemory>
    ensures { OnOk result (addresses.new ≡ addresses.old ++ mailbox_in item.now) }
{
    let parts = parts_of(item);
    let name = name_text(alloc, parts.name)?;
    let text = address_text(alloc, parts.address)?;
    push_named(alloc, addresses, name, without_route(text.as_slice()))
}

/// Appends the mailbox with a name and an address, unless both are empty.
fn push_named(
    alloc: Global,
    addresses: &mut Addresses,
    name: Bytes,
    address: &[u8],
) -> Result<(), NoMemory>
    ensures { OnOk result (addresses.new ≡ addresses.old ++ mailbox_with name address.now) }
{
    if name.as_slice().is_empty() && address.is_empty() {
        return Ok(());
    }
    let (mailbox, host) = split_host(address);
    addresses.push(Address {
        kind: AddressKind::Mailbox,
        name,
        mailbox: copied(alloc, mailbox)?,
        host: copied(alloc, host)?,
    })
}

/// Copies bytes into a value of its own.
fn copied(alloc: Global, bytes: &[u8]) -> Result<Bytes, NoMemory>
    ensures { IfOk result (λ made. made ≡ bytes.now) }
{
    let mut made = Bytes::new(alloc);
    made.push_slice(bytes)?;
    Ok(made)
}

/// Returns an address without its route: if it starts with `@`, all up to its last colon is
/// removed.
fn without_route(address: &[u8]) -> &[u8]
    ensures { result.now ≡ without_route_of address.now }
{
    match address {
        [b'@', ..] => after_last_colon(address),
        _ => address,
    }
}

/// Returns the bytes after the last colon, or all bytes if there is none.
fn after_last_colon(address: &[u8]) -> &[u8]
    ensures { result.now ≡ part_after address.now (split_last (is_this 58) address.now) }
{
    match memrchr(b':', address) {
        Some(colon) => &address[colon + 1..],
        None => address,
    }
}

/// Returns the parts of an address before and after its last `@`. Without an `@` the host is empty.
fn split_host(address: &[u8]) -> (&[u8], &[u8])
    ensures mailbox { result.0.now ≡ mailbox_of address.now }
    ensures host { result.1.now ≡ host_of address.now }
{
    match memrchr(b'@', address) {
        Some(at) => (&address[..at], &address[at + 1..]),
        None => (address, &[]),
    }
}
