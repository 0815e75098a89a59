// A machine, or none, for C.
ghost use Rattle.std.specs.Prelude.{◌≡◌, None, Some, MatchOption, is_some};

use crate::Held;
use client_core::Machine;
use loose_boxes::Loose;
use std::alloc::Global;
use std::mem;

/// A machine, or none. All zeros is none.
#[repr(C)]
#[derive(Drop)]
pub struct Handle {
    pub(crate) held: Held,
    pub(crate) is_there: bool,
    pub ghost there: { is_there ≡ is_some held.value },
}

/// Takes the machine.
pub fn taken(alloc: Global, handle: &mut Handle) -> Option<Box<Machine>>
    ensures left { handle.new.held.value ≡ None }
    ensures taken { MatchOption result (handle.old.held.value ≡ None)
        (λ boxed. handle.old.held.value ≡ Some boxed.value) }
{
    if !handle.is_there {
        return None;
    }
    let held = mem::replace(&mut handle.held, Held::none());
    handle.is_there = false;
    Some(held.into_loose(alloc).into_box())
}

/// Puts a machine in.
pub fn put(handle: &mut Handle, boxed: Box<Machine>)
    ensures { handle.new.held.value ≡ Some boxed.value }
{
    handle.held = Held::of(Loose::of(boxed));
    handle.is_there = true;
}
