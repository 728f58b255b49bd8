// A new file in the same folder as another, under a name that was free.
ghost use Rattle.std.specs.Prelude.{◌≡◌, ◌+◌, ◌<◌, ◌≤◌, length, take, IsUtf8, MatchOption};
ghost use Rattle.files.specs.Calls.{Called, makes, number_if};
ghost use Rattle.files.specs.Save.{folder_of, stem_of, Stem, with_digit, longest_folder, Tries};

use std::fs::{File, OpenOptions};

// The longest path, and the byte that ends it.
pub const PATH: usize = 4096;

// The longest folder that leaves room for the new file's name.
const FOLDER: usize = 4068;

// The folder: the name up to and with its last '/'.
fn folder(name: &[u8]) -> &[u8]
    ensures { result.now ≡ folder_of name.now }
{
    match name.iter().rposition(|b| *b == b'/') {
        Some(last) => &name[..last + 1],
        None => &name[..0],
    }
}

// The new name but for its last digit, at the start of the path.
fn put_stem(folder: &[u8], number: u64, path: &mut [u8]) -> usize
    requires { (length folder.now ≤ longest_folder) × (length path.old ≡ 4096) }
    ensures path_after { take result path.new ≡ stem_of folder.now number }
    ensures result_nonzero { (0 < result) × (result < 4096) }
{
    let a = text::put_bytes(path, 0, folder);
    let b = text::put_bytes(path, a, b".legs-");
    text::put_decimal(path, b, number, 45)
}

// The one call that makes a file.
fn create(rt: &HostRuntime, new: &str) -> Option<File>
    ensures { Called (makes new.now (number_if result)) }
{
    OpenOptions::new()
        .write(true)
        .create_new(true)
        .open(rt, new)
        .ok()
}

// The name with this digit: the file, where it was free.
fn try_name(rt: &HostRuntime, path: &mut [u8], at: usize, k: u8) -> Option<File>
    requires { (at < length path.old) × (k < 10) × IsUtf8 (take at path.old) }
    ensures path_unchanged { take at path.new ≡ take at path.old }
    ensures path_after { take (at + 1) path.new ≡ with_digit (take at path.old) k }
    ensures called { Called (makes (take (at + 1) path.new) (number_if result)) }
{
    path[at] = b'0' + k;
    let n = at + 1;
    let Ok(new) = std::str::from_utf8(&path[0..n]) else {
        unreachable!()
    };
    create(rt, new)
}

// The ten names, one after the other, up to one that was free.
pub(crate) fn try_names(rt: &HostRuntime, path: &mut [u8], at: usize) -> Option<File>
    requires { (at < length path.old) × IsUtf8 (take at path.old) }
    ensures { Tries (take at path.old) (take (at + 1) path.new) (number_if result) }
{
    for k in 0..10 {
        if let Some(file) = try_name(rt, path, at, k) {
            return Some(file);
        }
    }
    None
}

// The new name but for its last digit, at the start of the path: its length, and none where the folder's name is too long.
pub(crate) fn put_new(rt: &HostRuntime, name: &[u8], path: &mut [u8; PATH]) -> Option<usize>
    ensures { MatchOption result (longest_folder < length (folder_of name.now)) (λ n. Stem name.now (take n path.new) × (n < 4096)) }
{
    let folder = folder(name);
    if FOLDER < folder.len() {
        return None;
    }
    let number = u64::from(std::process::id(rt.process()));
    Some(put_stem(folder, number, path))
}
