// Replays stored lists of outside answers: for each pair of arguments, a kind's number and the name of a list of that kind,
// it works every line out again and writes how many lines there are and how many differ.
#![tactic(auto)]

mod kinds;
mod list;
mod spelling;

ghost use Rattle.std.specs.Prelude.{◌≡◌, cond, ltb, [], length};

use files::{Output, STDOUT, Source, WORD};
use kinds::Kind;
use list::Tally;
use std::fs::File;

// The file of this name, where it can be opened.
fn open(rt: &HostRuntime, path: &[u8]) -> Option<File> {
    let name = std::str::from_utf8(path).ok()?;
    File::open(rt, name).ok()
}

// The list of this name; one that can't be opened has no lines.
fn tallied(rt: &HostRuntime, path: &[u8], kind: Kind) -> Tally {
    let Some(file) = open(rt, path) else {
        return Tally::start();
    };
    let tally = list::replayed(rt, Source::Opened(&file), kind);
    files::close(file);
    tally
}

// How much of a word is taken: all of it, or none where it is longer than a path can be.
fn kept(word: &[u8]) -> &[u8]
    ensures { result.now ≡ cond (ltb 4096 (length word.now)) [] word.now }
{
    if word.len() > 4096 { &[] } else { word }
}

// The list that word i + 1 names, whose kind's number is word i.
fn replay(rt: &HostRuntime, i: usize) {
    let mut kind = [0u8; WORD];
    let kind = kept(files::word(rt, i, &mut kind));
    let mut path = [0u8; WORD];
    let path = kept(files::word(rt, i.wrapping_add(1), &mut path));
    let tally = tallied(rt, path, Kind::of(kind));
    Output::begin(STDOUT).put(rt, path);
    tally.print(rt);
}

fn main(rt: HostRuntime) {
    let n = files::word_count(&rt);
    for pair in 0..n / 2 {
        replay(&rt, 2 * pair + 1);
    }
}
