//! Calls that are made with their first, second and each later allocation refused.
//!
//! `tools/refuse_allocations.c` refuses allocations if it replaces the heap. A test tells it which
//! ones by requests for more bytes than a machine has. Without it each such request fails, and the
//! calls are made in ample memory.

use crate::memory::both_made;
use std::alloc::{AllocError, Global};
use std::io;

/// The request that has one allocation refused, with its number added.
const REFUSE_ONE: usize = 1 << 60;

/// The request that has each allocation refused.
const REFUSE_EACH: usize = 1 << 59;

/// The request that ends both. It succeeds if an allocation was refused.
const END: usize = 1 << 58;

/// More allocations than any call here makes.
const MOST: usize = 10_000;

/// Whether a request for so many bytes succeeds.
fn is_given(alloc: Global, bytes: usize) -> bool {
    Vec::<u8>::with_capacity(alloc, bytes).is_ok()
}

/// Has each allocation refused from now on, if something refuses allocations.
pub fn refuse_each(alloc: Global) {
    let _ = is_given(alloc, REFUSE_EACH);
}

/// Has no allocation refused any more, and returns whether one was.
fn end_refusal(alloc: Global) -> bool {
    is_given(alloc, END)
}

/// Whether something refuses allocations at all.
fn is_refusing(alloc: Global) -> bool {
    let is_refusing = is_given(alloc, REFUSE_ONE + MOST);
    let _ = end_refusal(alloc);
    is_refusing
}

/// The allocation of a call that is to be refused.
#[derive(Clone, Copy)]
pub struct Allocation {
    /// The allocator of the call.
    pub alloc: Global,
    /// The number of the allocation, and 0 if none is to be refused.
    number: usize,
}

impl Allocation {
    /// Has the allocation refused from now on. A call does this once its arguments are made.
    pub fn refuse(self) {
        if self.number > 0 {
            let _ = is_given(self.alloc, REFUSE_ONE.saturating_add(self.number));
        }
    }

    /// Returns whether a call was made. In ample memory it has to be made, and otherwise the sweep
    /// fails, as it does if there is no memory for the arguments: a misspelt call is no call.
    pub fn made(self, is_made: bool) -> Result<bool, AllocError> {
        if self.number == 0 && !is_made {
            return Err(AllocError);
        }
        Ok(is_made)
    }
}

/// Whether what a call has returned and left after a refusal is right, as `is_swept` has it.
pub fn is_as_in_ample_memory<B: PartialEq, A: PartialEq>(
    _alloc: Global,
    made: (&A, &B),
    ample: (&A, &B),
) -> Result<bool, AllocError> {
    Ok(*made.0 == *ample.0 && *made.1 == *ample.1)
}

/// Whether what a call has returned and left is right: it fails only if an allocation was refused,
/// and then leaves the value as it was.
fn is_run_right<
    B: PartialEq + Drop,
    A: PartialEq,
    F: FnOnce(Global) -> Result<B, AllocError>,
    J: FnOnce(Global, (&A, &B), (&A, &B)) -> Result<bool, AllocError>,
>(
    alloc: Global,
    was_refused: bool,
    made: (&Result<A, AllocError>, &B),
    ample: (&A, &B),
    borrowed: F,
    is_right: J,
) -> Result<bool, AllocError>
    requires may_borrow { F.IsAlwaysCallable borrowed }
    requires may_judge { J.IsAlwaysCallable is_right }
{
    match made.0 {
        Err(_) => Ok(was_refused && *made.1 == borrowed(alloc)?),
        Ok(answer) if was_refused => is_right(alloc, (answer, made.1), ample),
        Ok(answer) => is_as_in_ample_memory(alloc, (answer, made.1), ample),
    }
}

/// Makes a call with an allocation refused. Returns whether one was, or `None` if the run was
/// wrong.
fn run<
    B: PartialEq + Drop,
    A: PartialEq + Drop,
    F: Copy + FnOnce(Global) -> Result<B, AllocError>,
    C: FnOnce(Allocation, &mut B) -> Result<A, AllocError>,
    J: FnOnce(Global, (&A, &B), (&A, &B)) -> Result<bool, AllocError>,
>(
    allocation: Allocation,
    ample: (&A, &B),
    borrowed: F,
    call: C,
    is_right: J,
) -> Result<Option<bool>, AllocError>
    requires may_borrow { F.IsAlwaysCallable borrowed }
    requires may_call { C.IsAlwaysCallable call }
    requires may_judge { J.IsAlwaysCallable is_right }
{
    let mut left = borrowed(allocation.alloc)?;
    let made = call(allocation, &mut left);
    let was_refused = end_refusal(allocation.alloc);
    let made = (&made, &left);
    let is_right = is_run_right(
        allocation.alloc,
        was_refused,
        made,
        ample,
        borrowed,
        is_right,
    )?;
    Ok(if is_right { Some(was_refused) } else { None })
}

/// Returns how many allocations a call makes, or `None` if it is wrong with one of them refused.
fn count_allocations<
    B: PartialEq + Drop,
    A: PartialEq + Drop,
    F: Copy + FnOnce(Global) -> Result<B, AllocError>,
    C: Copy + FnOnce(Allocation, &mut B) -> Result<A, AllocError>,
    J: Copy + FnOnce(Global, (&A, &B), (&A, &B)) -> Result<bool, AllocError>,
>(alloc: Global, borrowed: F, call: C, is_right: J) -> Result<Option<usize>, AllocError>
    requires may_borrow { F.IsAlwaysCallable borrowed }
    requires may_call { C.IsAlwaysCallable call }
    requires may_judge { J.IsAlwaysCallable is_right }
{
    let mut left = borrowed(alloc)?;
    let ample = call(Allocation { alloc, number: 0 }, &mut left)?;
    for count in 0..MOST {
        let number = count + 1;
        match run(
            Allocation { alloc, number },
            (&ample, &left),
            borrowed,
            call,
            is_right,
        )? {
            Some(true) => {}
            Some(false) => return Ok(Some(count)),
            None => return Ok(None),
        }
    }
    Ok(None)
}

/// Whether a call is right with each allocation refused in turn, and makes one at all. Prints a
/// line.
///
/// `borrowed` makes the value that the call borrows. `call` makes the other arguments, has the
/// allocation refused, and makes the call. If the call fails, an allocation was refused, and the
/// value is as it was. If the call returns although an allocation was refused, `is_right` says
/// whether that is right.
pub fn is_swept_by<
    B: PartialEq + Drop,
    A: PartialEq + Drop,
    F: Copy + FnOnce(Global) -> Result<B, AllocError>,
    C: Copy + FnOnce(Allocation, &mut B) -> Result<A, AllocError>,
    J: Copy + FnOnce(Global, (&A, &B), (&A, &B)) -> Result<bool, AllocError>,
>(rt: &impl Print, alloc: Global, name: &str, borrowed: F, call: C, is_right: J) -> io::Result<bool>
    requires may_borrow { F.IsAlwaysCallable borrowed }
    requires may_call { C.IsAlwaysCallable call }
    requires may_judge { J.IsAlwaysCallable is_right }
{
    let is_refusing = is_refusing(alloc);
    let allocations = count_allocations(alloc, borrowed, call, is_right)?;
    match allocations {
        Some(_) if !is_refusing => println!(rt; "{name}: in ample memory")?,
        Some(count) => println!(rt; "{name}: {count} allocations")?,
        None => println!(rt; "{name}: wrong")?,
    }
    Ok(allocations.is_some_and(|count| count > 0 || !is_refusing))
}

/// Whether a call is right with each allocation refused in turn, as `is_swept_by` has it. If the
/// call returns, it returns and leaves what it does in ample memory.
pub fn is_swept<
    B: PartialEq + Drop,
    A: PartialEq + Drop,
    F: Copy + FnOnce(Global) -> Result<B, AllocError>,
    C: Copy + FnOnce(Allocation, &mut B) -> Result<A, AllocError>,
>(rt: &impl Print, alloc: Global, name: &str, borrowed: F, call: C) -> io::Result<bool>
    requires may_borrow { F.IsAlwaysCallable borrowed }
    requires may_call { C.IsAlwaysCallable call }
{
    is_swept_by(rt, alloc, name, borrowed, call, is_as_in_ample_memory)
}

/// Whether calls since `refuse_each` are right, and met no refusal. Prints a line.
pub fn is_free(rt: &impl Print, alloc: Global, name: &str, is_right: bool) -> io::Result<bool> {
    let was_refused = end_refusal(alloc);
    let is_right = is_right && !was_refused;
    match is_right {
        true if is_refusing(alloc) => println!(rt; "{name}: no allocations")?,
        true => println!(rt; "{name}: in ample memory")?,
        false => println!(rt; "{name}: wrong")?,
    }
    Ok(is_right)
}

/// Whether a call of a value is right, and meets no refusal if each allocation is refused. Prints a
/// line.
///
/// A test does not own the value, so its exit paths do not drop it.
pub fn is_free_on<T: Drop, C: FnOnce(&mut T) -> bool>(
    rt: &impl Print,
    alloc: Global,
    name: &str,
    value: Result<T, AllocError>,
    call: C,
) -> io::Result<bool>
    requires may_call { C.IsAlwaysCallable call }
{
    let mut value = value?;
    refuse_each(alloc);
    let is_right = call(&mut value);
    is_free(rt, alloc, name, is_right)
}

/// Whether a value equals itself and not another one, without an allocation. Prints a line.
pub fn is_compared<T: PartialEq + Drop>(
    rt: &impl Print,
    alloc: Global,
    name: &str,
    value: Result<T, AllocError>,
    other: Result<T, AllocError>,
) -> io::Result<bool> {
    is_free_on(rt, alloc, name, both_made(value, other), |held| {
        held.0 == held.0 && held.0 != held.1
    })
}
