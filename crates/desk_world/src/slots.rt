// Clients by number, in the order in which events named them.
ghost use Rattle.std.specs.Prelude.{◌≡◌, ◌<◌, ◌==◌, length, slice_get, Some, None, IfOk, MatchOption};
ghost use Rattle.std.specs.List.{position};
ghost use Rattle.desk_world.specs.Client.{Client as Content, unnamed};
ghost use Rattle.desk_world.specs.World.{client_in, put_client};
ghost use Rattle.desk_world.specs.parts.Slots.{IsPlace, IsAbsent};

use crate::clients::{Client, Slot};
use crate::known::Known;
use std::alloc::{AllocError, Global};

/// The client of the number, if an event has named it.
pub fn named(slots: &[Slot], number: u32) -> Option<&Client>
    ensures { MatchOption result (client_in number slots.now ≡ unnamed)
        (λ client. client.now ≡ client_in number slots.now) }
{
    match place_of(slots, number) {
        Some(at) => Some(&slots[at].client),
        None => None,
    }
}

/// The commit that the client of the number was told of last.
pub fn told(slots: &[Slot], number: u32) -> u64
    ensures { result ≡ (client_in number slots.now).told }
{
    match named(slots, number) {
        Some(client) => client.told,
        None => 0,
    }
}

/// The link of the client of the number, if it has one.
pub fn link(slots: &[Slot], number: u32) -> Option<u32>
    ensures { result ≡ (client_in number slots.now).link }
{
    match named(slots, number) {
        Some(client) => client.link,
        None => None,
    }
}

/// The open ask of the client of the number, if it has one.
pub fn asking(slots: &[Slot], number: u32) -> Option<u32>
    ensures { result ≡ (client_in number slots.now).asking }
{
    match named(slots, number) {
        Some(client) => client.asking,
        None => None,
    }
}

fn take(slots: &mut [Slot], alloc: Global, number: u32) -> Client
    ensures client { result ≡ client_in number slots.old }
    ensures left { (client : Content) → put_client number client slots.new ≡ put_client number client slots.old }
{
    match place_of(slots, number) {
        Some(at) => std::mem::replace(&mut slots[at].client, Client::unnamed(alloc)),
        None => Client::unnamed(alloc),
    }
}

/// Takes the client of the number out, to be put back changed.
pub fn take_out(slots: &mut Vec<Slot>, number: u32) -> Client
    ensures client { result ≡ client_in number slots.old.items }
    ensures left { (client : Content)
        → put_client number client slots.new.items ≡ put_client number client slots.old.items }
{
    let alloc = *slots.allocator();
    take(slots, alloc, number)
}

/// The verdict of this entry in the cache of the client.
pub fn known(slots: &[Slot], number: u32, entry: u32) -> Option<&Known>
    ensures { MatchOption result (slice_get (client_in number slots.now).log entry ≡ None)
        (λ known. slice_get (client_in number slots.now).log entry ≡ Some known.now) }
{
    match named(slots, number) {
        Some(client) => client.known(entry),
        None => None,
    }
}

/// The client of the number is this one from now on.
pub fn put(slots: &mut Vec<Slot>, number: u32, client: Client) -> Result<(), AllocError>
    ensures { IfOk result (λ done. slots.new.items ≡ put_client number client slots.old.items) }
{
    match place_of(slots, number) {
        Some(at) => {
            slots[at] = Slot { number, client };
            Ok(())
        }
        None => {
            slots.push(Slot { number, client })?;
            Ok(())
        }
    }
}

fn place_of(slots: &[Slot], number: u32) -> Option<usize>
    ensures { MatchOption result (IsAbsent slots.now number) (IsPlace slots.now number) }
{
    first_of(slots, number)
}

fn first_of(slots: &[Slot], number: u32) -> Option<usize>
    ensures { result ≡ position (λ slot. slot.number == number) slots.now }
{
    slots.iter().position(|slot| slot.number == number)
}
