//! A block of memory for values that are stored later: how it is allocated, used, and freed.
//!
//! `core::slots::Slots`, here `Memory`, can't be built without a value of `T`. Before the first value there is a `Block`: the memory as an allocator
//! returns it. The first value turns the block into `Memory`. `Memory` that holds nothing becomes a block again, to be freed.
ghost use Rattle.core.specs.Prelude.{◌≡◌, ℕ, ◌*◌, ◌^◌, ◌<◌, false, IfOk, slice_index_or};
ghost use Rattle.core.specs.Mem.Slots.{slots_ptr, slots_len, slots_filled};
ghost use denote.RawPtr.{Ptr};
ghost use Rattle.hashbag_slots.specs.Owning.{block_owns, deed_owns, FitsBlock, IsUnfilled};

use core::slots::Slots as Memory;
use std::alloc::{AllocError, Allocator};
use std::marker::{Model, PhantomData};
use std::mem::{align_of, size_of};

/// Memory for `len` values, which holds none yet.
pub struct Block<T> {
    pub(crate) ptr: *mut T,
    pub(crate) len: usize,
}

impl<T> Model for Block<T> {
    ghost also_owns = { λ r. block_owns T.row r.ptr r.len };
}

/// The right to free a block by its allocator. It takes no bytes of its own. Contracts see where the block is, its length, and the allocator.
pub struct Deed<T, A: Allocator> {
    by: PhantomData<(T, A)>,
    pub ghost at: { Ptr },
    pub ghost len: { ℕ },
    pub ghost alloc: { A },
}

impl<T, A: Allocator> Model for Deed<T, A> {
    ghost also_owns = { λ d. deed_owns (A.dealloc_token d.alloc) T.row d.at d.len };
}

/// Allocates a block for `len` values.
///
/// # Errors
///
/// `AllocError` if the allocator fails. Then there is no block.
pub fn allocate<T, A: Allocator>(
    alloc: &A,
    len: usize,
) -> Result<(Block<T>, Deed<T, A>), AllocError>
    requires { FitsBlock T.row len }

    // The block has `len` places. The deed is the right to free this block by this allocator.
    ensures { IfOk result (λ p. (p.0.len ≡ len) × (p.1.at ≡ p.0.ptr) × (p.1.len ≡ len) × (p.1.alloc ≡ alloc.now)) }
{
    match alloc.allocate(len * size_of::<T>(), align_of::<T>()) {
        Ok(bytes) => {
            let ptr = bytes as *mut T;
            let by = PhantomData;
            Ok((Block { ptr, len }, Deed { by }))
        }
        Err(refused) => Err(refused),
    }
}

/// Frees a block by its allocator, with the deed that was returned with it.
pub fn release<T, A: Allocator>(alloc: &A, block: Block<T>, deed: Deed<T, A>)
    requires { (deed.at ≡ block.ptr) × (deed.len ≡ block.len) × (deed.alloc ≡ alloc.now) }
{
    let Block { ptr, len } = block;
    let Deed { by: _ } = deed;
    unsafe {
        alloc.deallocate(ptr as *mut u8, len * size_of::<T>(), align_of::<T>());
    }
}

impl<T> Block<T> {
    /// Turns the block into `Memory` whose places are all empty. `_like` isn't read: in contracts each empty place has some value, and here that is
    /// `_like`.
    pub fn into_memory(self, _like: &T) -> Memory<T>
        // The memory is the block's: at the same address, with as many places. None of them holds a value.
        ensures { IsUnfilled self.ptr self.len result }
    {
        let Block { ptr, len } = self;
        unsafe { Memory::from_raw_parts(ptr, len) }
    }

    /// Turns `Memory` that holds nothing into a block.
    pub fn from_memory(row: Memory<T>) -> Block<T>
        requires { (k : ℕ) → k < slots_len row → slice_index_or (slots_filled row) k false ≡ false }

        // The block is at the address of the memory, and has as many places.
        ensures { (result.ptr ≡ slots_ptr row) × (result.len ≡ slots_len row) }
    {
        let (ptr, len) = unsafe { row.into_raw_parts() };
        Block { ptr, len }
    }
}
