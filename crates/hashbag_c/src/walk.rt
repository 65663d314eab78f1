//! What C holds of a walk: one word, which is 0 or the address of a box that the library made. It is a type of its own, so that C can't take a walk
//! for a bag. The pairs are the walk's own, so the bag may change or be freed meanwhile.
ghost use Rattle.std.specs.Prelude.{◌≡◌, ◌≢◌, Option, None, Some};
ghost use Rattle.std.specs.Option.{MatchOption};
ghost use Rattle.hashbag_c.specs.declared.held.Left.{Left};
ghost use Rattle.hashbag_c.specs.Own.{owned_left};

use crate::held::Left;
use crate::raw_box::RawBox;
use std::alloc::Global;
use std::marker::Model;
use std::mem;
use std::ptr::null_mut;

/// A walk, which has the pairs that are left, or nothing. C begins with a word of zeros: a walk that has nothing.
#[repr(C)]
pub struct Walk {
    at: *mut u8,
    alloc: Global,
    pub ghost left: { Option Left },
}

impl Model for Walk {
    ghost also_owns = { λ w. owned_left w.alloc w.at w.left };
}

impl Walk {
    /// Returns a walk that has nothing.
    pub fn none(alloc: Global) -> Walk
        ensures { result.left ≡ None }
    {
        Walk {
            at: null_mut(),
            alloc,
        }
    }

    fn of_raw(raw: RawBox<Left, Global>) -> Walk
        ensures { result.left ≡ Some raw.value }
    {
        let RawBox { ptr, alloc } = raw;
        Walk {
            at: ptr as *mut u8,
            alloc,
        }
    }

    fn into_raw(self) -> Option<RawBox<Left, Global>>
        ensures { MatchOption result (self.left ≡ None) (λ raw. self.left ≡ Some raw.value) }
    {
        let Walk { at, alloc } = self;
        if at.is_null() {
            None
        } else {
            Some(RawBox {
                ptr: at as *mut Left,
                alloc,
            })
        }
    }

    /// Returns a walk that has what the box has.
    pub fn of(left: Box<Left>) -> Walk
        ensures { result.left ≡ Some left.value }
    {
        Walk::of_raw(RawBox::of(left))
    }

    /// Returns the box, or `None` if the walk has nothing.
    pub fn into_box(self) -> Option<Box<Left>>
        ensures { MatchOption result (self.left ≡ None) (λ left. self.left ≡ Some left.value) }
    {
        match self.into_raw() {
            Some(raw) => Some(raw.into_box()),
            None => None,
        }
    }

    /// Removes and returns the box. Returns `None` if there is none.
    pub fn take(&mut self, alloc: Global) -> Option<Box<Left>>
        ensures taken { MatchOption result (self.old.left ≡ None) (λ left. self.old.left ≡ Some left.value) }
        ensures left_empty { self.new.left ≡ None }
    {
        mem::replace(self, Walk::none(alloc)).into_box()
    }

    /// Puts a box into a walk that has nothing.
    pub fn put(&mut self, left: Box<Left>)
        requires { self.old.left ≡ None }
        ensures { self.new.left ≡ Some left.value }
    {
        mem::forget(mem::replace(self, Walk::of(left)));
    }

    /// Puts these pairs into the walk, and returns 0. What the walk had is freed. Returns 1 if an allocation fails: then nothing changes.
    pub fn begin(&mut self, alloc: Global, left: Left) -> u8
        ensures begun { result ≡ 0 → self.new.left ≡ Some left }
        ensures memory { result ≢ 0 → result ≡ 1 }
        ensures err { result ≢ 0 → self.new.left ≡ self.old.left }
    {
        match Box::new(alloc, left) {
            Ok(left) => {
                *self = Walk::of(left);
                0
            }
            Err(_) => 1,
        }
    }
}

impl Drop for Walk {
    fn drop(self) {
        drop(self.into_box());
    }
}
