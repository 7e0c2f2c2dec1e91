//! The addresses of a guard, as the items of comparisons.
ghost use Rattle.std.specs.Prelude.{◌≡◌, ◌+◌, ◌-◌, ◌*◌, ◌/◌, ◌^◌, ◌≤◌, ◌++◌, ◌&&◌, nat_lt, map, filter, IfOk, OnOk};
ghost use Rattle.nb_model.specs.Addresses.{has_host_part};
ghost use Rattle.net_rows.specs.PortSecurity.{item_of, own_items, broadcast_of, items_for_many};

use expr_core::Item;
use nb_records::Guard;
use nv_base::{Ip4, Items, OutOfMemory, Prefix};
use sb_model::{as_ip4, in_decimal};
use std::alloc::Global;

// The addresses that a guard lets in.
pub(crate) fn own_items(alloc: Global, guard: &Guard) -> Result<Items<Item>, OutOfMemory>
    ensures { IfOk result (λ items. items ≡ own_items guard.now) }
{
    let nets = guard.nets.as_slice();
    let mut items = Items::with_capacity(alloc, nets.len())?;
    for net in nets {
        items.push(item_of(*net))?;
    }
    Ok(items)
}

// The addresses that a guard lets out to: its own, and those for many.
pub(crate) fn items_let_out(alloc: Global, guard: &Guard) -> Result<Items<Item>, OutOfMemory>
    ensures { IfOk result (λ items. items ≡ own_items guard.now ++ items_for_many guard.now) }
{
    let mut items = own_items(alloc, guard)?;
    put_items_for_many(&mut items, guard)?;
    Ok(items)
}

// The broadcast of each network that is written with a host part, the broadcast of all, and multicast.
fn put_items_for_many(items: &mut Items<Item>, guard: &Guard) -> Result<(), OutOfMemory>
    ensures { OnOk result (items.new ≡ items.old ++ items_for_many guard.now) }
{
    put_broadcasts(items, guard.nets.as_slice())?;
    items.push(Item::One(as_ip4(Ip4(0xffff_ffff))))?;
    items.push(Item::Masked(as_ip4(Ip4(0xe000_0000)), in_decimal(4)))?;
    Ok(())
}

fn put_broadcasts(items: &mut Items<Item>, nets: &[Prefix]) -> Result<(), OutOfMemory>
    ensures { OnOk result (items.new ≡ items.old
        ++ map broadcast_of (filter (λ net. nat_lt net.len 32 && has_host_part net) nets.now)) }
{
    for net in nets {
        if net.len < 32 && has_host_part(*net) {
            items.push(broadcast_of(*net))?;
        }
    }
    Ok(())
}

// `base/len` where the host part is zero, else the address that is written.
fn item_of(net: Prefix) -> Item
    ensures { result ≡ item_of net }
{
    if net.len < 32 && !has_host_part(net) {
        Item::Masked(as_ip4(net.base), in_decimal(u128::from(net.len)))
    } else {
        Item::One(as_ip4(net.base))
    }
}

fn broadcast_of(net: Prefix) -> Item
    ensures { result ≡ broadcast_of net }
{
    Item::One(as_ip4(Ip4(last_address(net.base.0, net.len))))
}

// Whether the network is written with a host part.
fn has_host_part(net: Prefix) -> bool
    ensures { result ≡ has_host_part net }
{
    u64::from(net.base.0) % size_of(net.len) != 0
}

// The last address of the network of this length that has the address.
#[tactic(auto, using(crate::proofs::Broadcast::last_fits))]
fn last_address(base: u32, len: u8) -> u32
    requires { len ≤ 32 }
    ensures { result ≡ base / 2 ^ (32 - len) * 2 ^ (32 - len) + (2 ^ (32 - len) - 1) }
{
    let size = size_of(len);
    let first = u64::from(base) / size * size;
    (first + (size - 1)) as u32
}

// How many addresses a network of this length has.
#[tactic(auto, using(std::proofs::lemmas::Nat::one_shl))]
fn size_of(len: u8) -> u64
    requires { len ≤ 32 }
    ensures { result ≡ 2 ^ (32 - len) }
{
    1 << (32 - len)
}
