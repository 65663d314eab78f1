//! What C holds: one word, which is 0 or the address of a box that the library made.
ghost use Rattle.std.specs.Prelude.{◌≡◌, ◌≢◌, Option, None, Some};
ghost use Rattle.std.specs.Option.{MatchOption};
ghost use Rattle.hashbag_c.specs.declared.held.Held.{Held};
ghost use Rattle.hashbag_c.specs.Own.{owned};

use crate::held::Held;
use crate::raw_box::RawBox;
use std::alloc::Global;
use std::marker::Model;
use std::mem;
use std::ptr::null_mut;

/// A handle, which has something or nothing. C begins with a word of zeros: a handle that has nothing.
#[repr(C)]
pub struct Handle {
    at: *mut u8,
    alloc: Global,
    pub ghost held: { Option Held },
}

impl Model for Handle {
    ghost also_owns = { λ h. owned h.alloc h.at h.held };
}

impl Handle {
    /// Returns a handle that has nothing.
    pub fn none(alloc: Global) -> Handle
        ensures { result.held ≡ None }
    {
        Handle {
            at: null_mut(),
            alloc,
        }
    }

    fn of_raw(raw: RawBox<Held, Global>) -> Handle
        ensures { result.held ≡ Some raw.value }
    {
        let RawBox { ptr, alloc } = raw;
        Handle {
            at: ptr as *mut u8,
            alloc,
        }
    }

    fn into_raw(self) -> Option<RawBox<Held, Global>>
        ensures { MatchOption result (self.held ≡ None) (λ raw. self.held ≡ Some raw.value) }
    {
        let Handle { at, alloc } = self;
        if at.is_null() {
            None
        } else {
            Some(RawBox {
                ptr: at as *mut Held,
                alloc,
            })
        }
    }

    /// Returns a handle that has what the box has.
    pub fn of(held: Box<Held>) -> Handle
        ensures { result.held ≡ Some held.value }
    {
        Handle::of_raw(RawBox::of(held))
    }

    /// Returns the box, or `None` if the handle has nothing.
    pub fn into_box(self) -> Option<Box<Held>>
        ensures { MatchOption result (self.held ≡ None) (λ held. self.held ≡ Some held.value) }
    {
        match self.into_raw() {
            Some(raw) => Some(raw.into_box()),
            None => None,
        }
    }

    /// Removes and returns the box. Returns `None` if there is none.
    pub fn take(&mut self, alloc: Global) -> Option<Box<Held>>
        ensures taken { MatchOption result (self.old.held ≡ None) (λ held. self.old.held ≡ Some held.value) }
        ensures left_empty { self.new.held ≡ None }
    {
        mem::replace(self, Handle::none(alloc)).into_box()
    }

    /// Puts a box into a handle that has nothing.
    pub fn put(&mut self, held: Box<Held>)
        requires { self.old.held ≡ None }
        ensures { self.new.held ≡ Some held.value }
    {
        mem::forget(mem::replace(self, Handle::of(held)));
    }

    /// Puts `held` into the handle, and returns 0. What the handle had is freed. Returns 1 if an allocation fails: then nothing changes.
    pub fn begin(&mut self, alloc: Global, held: Held) -> u8
        ensures begun { result ≡ 0 → self.new.held ≡ Some held }
        ensures memory { result ≢ 0 → result ≡ 1 }
        ensures err { result ≢ 0 → self.new.held ≡ self.old.held }
    {
        match Box::new(alloc, held) {
            Ok(held) => {
                *self = Handle::of(held);
                0
            }
            Err(_) => 1,
        }
    }
}

impl Drop for Handle {
    fn drop(self) {
        drop(self.into_box());
    }
}
