// A machine as its pointer, or none.
ghost use Rattle.std.specs.Prelude.{◌≡◌, Option, None, Some, IsSome};
ghost use Rattle.client_core.specs.declared.machines.Machine.{Machine};
ghost use Rattle.client_c.specs.Owned.{machine_owns};

use client_core::Machine;
use loose_boxes::Loose;
use std::alloc::Global;
use std::marker::Model;
use std::ptr::null_mut;

#[repr(C)]
#[derive(Drop)]
pub struct Held {
    at: *mut u8,
    pub ghost value: { Option Machine },
}

impl Model for Held {
    ghost also_owns = { λ h. machine_owns h.at h.value };
}

impl Held {
    /// Without a machine. All of its bytes are zeros.
    pub fn none() -> Held
        ensures { result.value ≡ None }
    {
        Held { at: null_mut() }
    }

    /// The machine of a box that was taken apart.
    pub fn of(loose: Loose<Machine, Global>) -> Held
        ensures { result.value ≡ Some loose.value }
    {
        let Loose { at, alloc: _ } = loose;
        Held { at: at as *mut u8 }
    }

    /// Its machine, for a box of this memory to be put together from.
    pub fn into_loose(self, alloc: Global) -> Loose<Machine, Global>
        requires { IsSome self.value }
        ensures { self.value ≡ Some result.value }
    {
        let Held { at } = self;
        Loose {
            at: at as *mut Machine,
            alloc,
        }
    }
}
