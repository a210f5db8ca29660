//! A desk in memory, for tests.
ghost use Rattle.std.specs.Prelude.{◌≡◌, ◌<◌, Some, None, length, bytes_eq, find, position, option_map, option_copied, is_err, IfOk, OnOk, OnErr};
ghost use Rattle.bz_io.specs.Faults.{Counts};
ghost use Rattle.bz_io.specs.Desk.{Holds, IsAfterLoads, LoadsText, NeedsMemory, Saves, is_failed};
ghost use Rattle.bz_io.specs.MemDesk.{new_desk, texts_of, contents_of, call_fails, telling_of, MemSaves, after_call};

use crate::faults::is_failed;
use crate::{Desk, FaultCount, LoadError, SaveError};
use std::alloc::{AllocError, Global};
use std::marker::Model;

type Files = Vec<(Vec<u8>, Vec<u8>)>;

/// A desk that keeps its files, and fails where it is told to.
#[derive(Drop)]
pub struct MemDesk {
    alloc: Global,
    files: Files,
    fails: Vec<u64>,
    calls: u64,
    faults: FaultCount,
}

impl Model for MemDesk {
    ghost use Rattle.std.specs.Prelude.{◌≤◌};
    ghost use Rattle.bz_io.specs.Faults.{last_count};
    ghost use Rattle.bz_io.specs.MemDesk.{MemDeskState, texts_of};

    ghost Value = { MemDeskState };

    ghost view = { λ d. record {
      files = texts_of d.files.items;
      fails = d.fails.items;
      calls = d.calls;
      faults = d.faults;
    } };

    ghost invariant = { λ d. d.calls ≤ last_count };
}

impl MemDesk {
    /// A desk that holds these files, pairs of a name and its text. The first with a name is what that name holds.
    /// Calls of `load` and `save` are numbered together from 0, and those that `fails` lists fail.
    pub fn new(alloc: Global, files: Files, fails: Vec<u64>) -> MemDesk
        ensures { result ≡ new_desk files.items fails.items }
    {
        MemDesk {
            alloc,
            files,
            fails,
            calls: 0,
            faults: FaultCount::none(),
        }
    }

    /// What the name holds.
    pub fn held(&self, name: &str) -> Option<&[u8]>
        ensures { option_copied result ≡ contents_of self.now.files name.now }
    {
        text_of(&self.files, name.as_bytes())
    }

    /// Whether the next call is one of those that fail.
    fn is_listed(&self) -> bool
        ensures { result ≡ call_fails self.now 0 }
    {
        self.fails.contains(&self.calls)
    }
}

impl Desk for MemDesk {
    ghost told = { λ desk. Some (telling_of desk) };

    ghost faults = { λ desk. desk.faults };

    /// It fails where the call is listed and where the name holds nothing.
    fn load(&mut self, alloc: Global, name: &str, limit: usize) -> Result<Vec<u8>, LoadError>
        ensures answer { LoadsText (call_fails self.old 0) (contents_of self.old.files name.now) limit result }
        ensures after { self.new ≡ after_call self.old self.old.files (is_failed result) }
        ensures count { Counts (is_failed result) self.old.faults self.new.faults }
    {
        let listed = self.is_listed();
        let text = text_of(&self.files, name.as_bytes());
        let answer = copy_within(alloc, listed, text, limit);
        self.calls = self.calls.saturating_add(1);
        self.faults = self.faults.after(is_failed(&answer));
        answer
    }

    /// It fails where the call is listed, and then leaves the empty text, and for want of memory.
    fn save(&mut self, name: &str, bytes: &[u8]) -> Result<(), SaveError>
        ensures answer { MemSaves (call_fails self.old 0) name.now bytes.now self.old.files self.new.files result }
        ensures after { self.new ≡ after_call self.old self.new.files (is_err result) }
        ensures count { Counts (is_err result) self.old.faults self.new.faults }
    {
        let listed = self.is_listed();
        let saved = store_unless(listed, self.alloc, &mut self.files, name.as_bytes(), bytes);
        self.calls = self.calls.saturating_add(1);
        self.faults = self.faults.after(saved.is_err());
        saved
    }
}

/// The text of the first file with the name.
fn text_of<'a>(files: &'a [(Vec<u8>, Vec<u8>)], name: &[u8]) -> Option<&'a [u8]>
    ensures { option_copied result
        ≡ option_map (λ file. file.1.items) (find (λ file. bytes_eq file.0.items name.now) files.now) }
{
    files
        .iter()
        .find(|file| file.0.as_slice() == name)
        .map(|file| file.1.as_slice())
}

/// A copy of the bytes. Where there are none it takes no memory.
fn copy_of(alloc: Global, bytes: &[u8]) -> Result<Vec<u8>, AllocError>
    ensures ok { IfOk result (λ copy. copy.items ≡ bytes.now) }
    ensures cause { OnErr result (0 < length bytes.now) }
{
    let mut copy = Vec::with_capacity(alloc, bytes.len())?;
    copy.extend_from_slice(bytes)?;
    Ok(copy)
}

/// A copy of the text, where there is one and it is within the limit and the call isn't listed.
fn copy_within(
    alloc: Global,
    listed: bool,
    text: Option<&[u8]>,
    limit: usize,
) -> Result<Vec<u8>, LoadError>
    ensures { LoadsText listed (option_copied text.entry) limit result }
{
    if listed {
        return Err(LoadError::Failed);
    }
    let Some(bytes) = text else {
        return Err(LoadError::Failed);
    };
    if bytes.len() > limit {
        return Err(LoadError::TooLong);
    }
    match copy_of(alloc, bytes) {
        Ok(copy) => Ok(copy),
        Err(_) => Err(LoadError::OutOfMemory),
    }
}

/// Stores the bytes under the name, or the empty text in a call that is listed.
fn store_unless(
    listed: bool,
    alloc: Global,
    files: &mut Files,
    name: &[u8],
    bytes: &[u8],
) -> Result<(), SaveError>
    ensures { MemSaves listed name.now bytes.now (texts_of files.old.items) (texts_of files.new.items) result }
{
    if listed {
        let _ = store(alloc, files, name, &[]);
        return Err(SaveError::Failed);
    }
    match store(alloc, files, name, bytes) {
        Ok(()) => Ok(()),
        Err(_) => Err(SaveError::Failed),
    }
}

/// Makes the first file with the name, or a new one at the end, hold the text. Want of memory changes nothing.
fn store(alloc: Global, files: &mut Files, name: &[u8], text: &[u8]) -> Result<(), AllocError>
    ensures ok { OnOk result (Holds name.now text.now (contents_of (texts_of files.old.items)) (contents_of (texts_of files.new.items))) }
    ensures kept { OnErr result (files.new.items ≡ files.old.items) }
    ensures cause { OnErr result (NeedsMemory name.now text.now (contents_of (texts_of files.old.items))) }
{
    let text = copy_of(alloc, text)?;
    match place_of(files, name) {
        Some(at) => {
            let file = &mut files[at];
            file.1 = text;
        }
        None => {
            let name = Vec::from_slice(alloc, name)?;
            files.push((name, text))?;
        }
    }
    Ok(())
}

/// The place of the first file with the name.
fn place_of(files: &[(Vec<u8>, Vec<u8>)], name: &[u8]) -> Option<usize>
    ensures { result ≡ position (λ file. bytes_eq file.0.items name.now) files.now }
{
    files.iter().position(|file| file.0.as_slice() == name)
}
