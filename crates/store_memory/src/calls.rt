// The calls of a store with their arguments, as a log keeps them.
ghost use Rattle.std.specs.Prelude.{◌≡◌, IfOk};

use plain_data::{Items, Text};
use std::alloc::{AllocError, Global};

/// A call of a store, with what it was given.
pub enum StoreCall {
    /// The names in this folder were asked for.
    List(Text),
    /// The length of this file was asked for.
    Length(Text),
    /// This file was read from this place on.
    Read(Text, u64),
    /// These bytes were appended to this file.
    Append(Text, Items<u8>),
    /// These bytes were written to this file from this place on.
    WriteAt(Text, u64, Items<u8>),
    /// This file was cut to this length.
    Cut(Text, u64),
    /// This file was removed.
    Remove(Text),
    /// All files were settled.
    Sync,
}

impl StoreCall {
    ghost use Rattle.store_memory.specs.declared.calls.StoreCall.TheVariants.{Length, Read, Append, WriteAt, Cut, Remove};
    ghost use Rattle.store_memory.specs.declared.calls.StoreCall.TheVariants.{List as Listing};

    pub(crate) fn list(alloc: Global, folder: &str) -> Result<StoreCall, AllocError>
        ensures { IfOk result (λ call. call ≡ Listing folder.now) }
    {
        Ok(StoreCall::List(Text::of(alloc, folder)?))
    }

    pub(crate) fn length(alloc: Global, name: &str) -> Result<StoreCall, AllocError>
        ensures { IfOk result (λ call. call ≡ Length name.now) }
    {
        Ok(StoreCall::Length(Text::of(alloc, name)?))
    }

    pub(crate) fn read(alloc: Global, name: &str, at: u64) -> Result<StoreCall, AllocError>
        ensures { IfOk result (λ call. call ≡ Read name.now at) }
    {
        Ok(StoreCall::Read(Text::of(alloc, name)?, at))
    }

    pub(crate) fn append(alloc: Global, name: &str, bytes: &[u8]) -> Result<StoreCall, AllocError>
        ensures { IfOk result (λ call. call ≡ Append name.now bytes.now) }
    {
        let bytes = Items::from_vec(Vec::from_slice(alloc, bytes)?);
        Ok(StoreCall::Append(Text::of(alloc, name)?, bytes))
    }

    pub(crate) fn write_at(
        alloc: Global,
        name: &str,
        at: u64,
        bytes: &[u8],
    ) -> Result<StoreCall, AllocError>
        ensures { IfOk result (λ call. call ≡ WriteAt name.now at bytes.now) }
    {
        let bytes = Items::from_vec(Vec::from_slice(alloc, bytes)?);
        Ok(StoreCall::WriteAt(Text::of(alloc, name)?, at, bytes))
    }

    pub(crate) fn cut(alloc: Global, name: &str, length: u64) -> Result<StoreCall, AllocError>
        ensures { IfOk result (λ call. call ≡ Cut name.now length) }
    {
        Ok(StoreCall::Cut(Text::of(alloc, name)?, length))
    }

    pub(crate) fn remove(alloc: Global, name: &str) -> Result<StoreCall, AllocError>
        ensures { IfOk result (λ call. call ≡ Remove name.now) }
    {
        Ok(StoreCall::Remove(Text::of(alloc, name)?))
    }
}

// Written out, so that a proof sees one call wherever a call of a store is dropped, and not the drop of each variant.
impl Drop for StoreCall {
    fn drop(self) {
        match self {
            StoreCall::List(_folder) => {}
            StoreCall::Length(_name) => {}
            StoreCall::Read(_name, _) => {}
            StoreCall::Append(_name, _bytes) => {}
            StoreCall::WriteAt(_name, _, _bytes) => {}
            StoreCall::Cut(_name, _) => {}
            StoreCall::Remove(_name) => {}
            StoreCall::Sync => {}
        }
    }
}

/// A call as the log has it.
#[derive(Drop)]
pub struct Logged {
    pub call: StoreCall,
    /// Whether it did its work. A call that failed changed nothing.
    pub worked: bool,
}
