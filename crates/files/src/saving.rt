// A file put in place whole.
ghost use Rattle.std.specs.Prelude.{◌≡◌, ◌+◌, ◌<◌, true, length, take, Some, IsUtf8};
ghost use Rattle.std.specs.Fd.{file_raw_fd};
ghost use Rattle.std.specs.Result.{is_ok};
ghost use Rattle.files.specs.Calls.{Called, fills, syncs, renames, removes};
ghost use Rattle.files.specs.Save.{Stem, New, Written, Save};

use crate::closing::close;
use crate::naming::{PATH, put_new, try_names};
use std::fs::File;
use std::io::Write;
use std::os::fd::AsRawFd;
use std::{fs, io};

// Why the bytes are not under the name: it is no text, its folder's name is too long, no new file could be made, it could not be written, or it could not take the name.
#[derive(Clone, Copy, Debug, PartialEq, Eq)]
pub enum Unsaved {
    NoText,
    LongFolder,
    Unmade,
    Unwritten,
    Unnamed,
}

// The one call that writes to a file.
fn fill(file: &File, bytes: &[u8]) -> io::Result<()>
    ensures { Called (fills (file_raw_fd file.now) bytes.now (is_ok result)) }
{
    let mut to = file;
    to.write_all(bytes)
}

// The one call of sync_all: on a file that has these bytes.
fn sync(file: &File, bytes: &[u8]) -> io::Result<()>
    requires { Called (fills (file_raw_fd file.now) bytes.now true) }
    ensures { Called (syncs (file_raw_fd file.now) bytes.now (is_ok result)) }
{
    file.sync_all()
}

// The one call of remove_file.
fn remove(rt: &HostRuntime, new: &str) -> io::Result<()>
    ensures { Called (removes new.now (is_ok result)) }
{
    fs::remove_file(rt, new)
}

// The one call of rename: of a file that was made, filled with these bytes, synced and closed.
fn rename(rt: &HostRuntime, file: i32, new: &str, name: &str, bytes: &[u8]) -> io::Result<()>
    requires { New name.now new.now file × Written file bytes.now true }
    ensures { Called (renames new.now name.now (is_ok result)) }
{
    fs::rename(rt, new, name)
}

// All of the bytes, and the file is closed whatever came of it.
fn write_new(file: File, bytes: &[u8]) -> io::Result<()>
    ensures { Written (file_raw_fd file) bytes.now (is_ok result) }
{
    let filled = fill(&file, bytes);
    if filled.is_err() {
        close(file);
        return filled;
    }
    let synced = sync(&file, bytes);
    close(file);
    synced
}

// The new file takes the name; where it can't, it is removed.
fn replace(rt: &HostRuntime, file: File, new: &str, name: &str, bytes: &[u8]) -> Result<(), Unsaved>
    requires { New name.now new.now (file_raw_fd file) }
    ensures { Save name.now bytes.now (is_ok result) }
{
    let number = file.as_raw_fd();
    if write_new(file, bytes).is_err() {
        let _ = remove(rt, new);
        return Err(Unsaved::Unwritten);
    }
    if rename(rt, number, new, name, bytes).is_ok() {
        return Ok(());
    }
    let _ = remove(rt, new);
    Err(Unsaved::Unnamed)
}

// A new file is made and takes the name.
fn make_and_replace(
    rt: &HostRuntime,
    path: &mut [u8],
    at: usize,
    name: &str,
    bytes: &[u8],
) -> Result<(), Unsaved>
    requires { (at < length path.old) × Stem name.now (take at path.old) }
    ensures { Save name.now bytes.now (is_ok result) }
{
    let Some(file) = try_names(rt, path, at) else {
        return Err(Unsaved::Unmade);
    };
    let n = at + 1;
    let Ok(new) = std::str::from_utf8(&path[0..n]) else {
        unreachable!()
    };
    replace(rt, file, new, name, bytes)
}

// The bytes under this name: all of them, or the name holds what it held.
pub fn save(rt: &HostRuntime, name: &[u8], bytes: &[u8]) -> Result<(), Unsaved>
    ensures { Save name.now bytes.now (is_ok result) }
{
    let Ok(text) = std::str::from_utf8(name) else {
        return Err(Unsaved::NoText);
    };
    let mut path = [0u8; PATH];
    let Some(at) = put_new(rt, name, &mut path) else {
        return Err(Unsaved::LongFolder);
    };
    make_and_replace(rt, &mut path, at, text, bytes)
}
