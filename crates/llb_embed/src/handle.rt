//! The handle that a caller keeps: a struct of zeroes at first, and later what the last call left in it.

ghost use Rattle.std.specs.Prelude.{◌≡◌, Some, None, false, true, IsTrue, option_map, MatchOption};
ghost use Rattle.llb_embed.specs.Handle.{held_in, IsSound, StartsWith};

use crate::handle_value::Held;
use crate::kept_pointer::Kept;
use std::alloc::Global;
use std::mem::replace;

/// A handle: it holds nothing, or a value on the heap.
#[repr(C)]
#[derive(Drop)]
pub struct Llb {
    is_set: bool,
    kept: Kept,
}

/// Takes the value out of the handle, and returns it, if the handle holds one.
pub(crate) fn take(it: &mut Llb, alloc: Global) -> Option<Box<Held>>
    requires { IsSound it.old }
    ensures sound { IsSound it.new }
    ensures left { held_in it.new ≡ None }
    ensures taken { option_map (λ b. b.value) result ≡ held_in it.old }
{
    if !it.is_set {
        return None;
    }
    it.is_set = false;
    let kept = replace(&mut it.kept, Kept::none());
    Some(kept.into_box(alloc))
}

/// Puts a value into the handle, which has to hold none: a value that it held would never be freed.
pub(crate) fn put(it: &mut Llb, held: Box<Held>)
    requires { held_in it.old ≡ None }
    ensures sound { IsSound it.new }
    ensures holds { held_in it.new ≡ Some held.value }
{
    it.kept = Kept::of(held);
    it.is_set = true;
}

/// Takes out and returns the value that the handle holds; if the handle holds none, makes and returns an empty value. Returns `None` if
/// memory for an empty value is refused.
pub(crate) fn start(it: &mut Llb, alloc: Global) -> Option<Box<Held>>
    requires { IsSound it.old }
    ensures sound { IsSound it.new }
    ensures left { held_in it.new ≡ None }
    ensures starts { MatchOption result (held_in it.old ≡ None) (λ b. StartsWith (held_in it.old) b.value) }
{
    match take(it, alloc) {
        Some(held) => Some(held),
        None => match Box::new(alloc, Held::new(alloc)) {
            Ok(held) => Some(held),
            Err(_) => None,
        },
    }
}
