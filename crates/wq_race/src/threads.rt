//! Threads whose handles are kept in a list.
ghost use Rattle.std.specs.Prelude.{◌≡◌, vec_len, IfOk};
ghost use Rattle.std.specs.PromisedHandle.{KeepsEach};

use crate::race::RaceError;
use std::thread::{Promise, PromisedHandle, Threads, join_promised};

// Joins threads of which nobody takes what they give back.
fn join_unheard<R: Threads, T: Drop, P: Promise<T>>(rt: &R, handles: Vec<PromisedHandle<T, P>>) {
    for handle in handles {
        let _ = handle.join(rt);
    }
}

/// Joins all these threads, and answers what each gave back, where so many were made as were wanted.
///
/// # Errors
/// `Thread` where fewer were made. `Memory` where no memory can be had for what they gave back. All have ended in each case.
pub fn join_wanted<R: Threads, T: Drop, P: Promise<T>>(
    rt: &R,
    handles: Vec<PromisedHandle<T, P>>,
    wanted: usize,
) -> Result<Vec<T>, RaceError>
    ensures made { IfOk result (λ _. vec_len handles ≡ wanted) }
    ensures count { IfOk result (λ back. vec_len back ≡ wanted) }
    ensures each { IfOk result (λ back. KeepsEach P.Promise (vec_len handles) handles.items back.items) }
{
    let made = handles.len();
    match join_promised(rt, handles) {
        Ok(back) if made == wanted => Ok(back),
        Ok(_) => Err(RaceError::Thread),
        Err(refused) => {
            join_unheard(rt, refused.value);
            Err(RaceError::Memory)
        }
    }
}
