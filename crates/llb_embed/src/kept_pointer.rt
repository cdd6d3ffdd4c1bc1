//! `Kept`: a pointer that C keeps, to no value or to the value of a `Box` that was turned into this pointer.

ghost use Rattle.std.specs.Prelude.{◌≡◌};
ghost use Rattle.std.specs.declared.option.Option.{Option};
ghost use Rattle.std.specs.declared.option.Option.TheVariants.{None, Some};
ghost use Rattle.std.specs.declared.alloc.Global.{Global};
ghost use Rattle.llb_embed.specs.declared.handle_value.Held.{Held};
ghost use Rattle.llb_embed.specs.KeptPointer.{kept_owns, coded_kept, IsKept};

use crate::handle_value::Held;
use std::alloc::Global;
use std::marker::Model;

/// A null pointer, or the pointer to a `Held` that it owns. In contracts the ghost field `value` is this `Held`, or `None` for the null pointer.
#[repr(C)]
#[derive(Drop)]
pub struct Kept {
    at: *mut u8,
    pub ghost alloc: { Global },
    pub ghost value: { Option Held } by { coded_kept },
}

impl Model for Kept {
    ghost also_owns = { λ k. kept_owns k.alloc k.at k.value };
}

impl Kept {
    /// Turns a box into its pointer; the value stays where it is in memory.
    pub fn of(value: Box<Held>) -> Kept
        ensures { result.value ≡ Some value.value }
    {
        let at = Box::into_raw(value);
        Kept { at: at as *mut u8 }
    }

    /// Returns the box that was turned into this pointer.
    pub fn into_box(self, alloc: Global) -> Box<Held>
        requires { IsKept self.value }
        ensures { self.value ≡ Some result.value }
    {
        let Kept { at } = self;
        unsafe { Box::from_raw(alloc, at as *mut Held) }
    }

    /// Makes a `Kept` that has no value.
    pub fn none() -> Kept
        ensures { result.value ≡ None }
    {
        Kept {
            at: std::ptr::null_mut(),
        }
    }
}
