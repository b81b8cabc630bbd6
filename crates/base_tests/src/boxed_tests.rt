// Tests of boxes on the heap.
use plain_data::Boxed;
use std::alloc::{AllocError, Global};

fn is_shown(alloc: Global, boxed: &Boxed<i32>) -> Result<bool, AllocError> {
    Ok(format!(in alloc; "{boxed:?}")?.as_str() == "8")
}

pub(crate) fn is_boxed(alloc: Global) -> Result<bool, AllocError> {
    let mut boxed = Boxed::new(alloc, 7)?;
    let first = *boxed.get();
    boxed.set(8);
    Ok(first == 7 && is_shown(alloc, &boxed)? && boxed.into_inner() == 8)
}
