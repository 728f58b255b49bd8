// How a row differs.
ghost use Rattle.std.specs.Prelude.{◌+◌, ◌≤◌, length};
ghost use Rattle.difference.specs.declared.Change.TheVariants.{Moved, Alike, First, Steps};
ghost use Rattle.text.specs.Writing.{Put};
ghost use Rattle.differing.specs.Differing.{class_text, named_class, change_text};

use difference::Change;
use ledger::Class;
use text::{put_bytes, put_decimal};

// The class's name; a row that is damaged has none.
fn put_class(out: &mut [u8], at: usize, class: Option<Class>) -> usize
    requires { at + 7 ≤ length out.old }
    ensures put { Put out.old out.new at result (class_text class) }
    ensures upper_bound { result ≤ at + 7 }
{
    match class {
        Some(Class::Blank) => put_bytes(out, at, b"blank"),
        Some(Class::Finite) => put_bytes(out, at, b"finite"),
        Some(Class::PlusInfinity) => put_bytes(out, at, b"+inf"),
        Some(Class::MinusInfinity) => put_bytes(out, at, b"-inf"),
        Some(Class::Refused) => put_bytes(out, at, b"refused"),
        None => put_bytes(out, at, b"none"),
    }
}

// Words and a class.
fn put_named(out: &mut [u8], at: usize, words: &[u8], class: Option<Class>) -> usize
    requires { at + length words.now + 7 ≤ length out.old }
    ensures put { Put out.old out.new at result (named_class words.now class) }
    ensures upper_bound { result ≤ at + length words.now + 7 }
{
    let a = put_bytes(out, at, words);
    put_class(out, a, class)
}

fn put_moved(out: &mut [u8], at: usize, from: Option<Class>, to: Option<Class>) -> usize
    requires { at + 24 ≤ length out.old }
    ensures put { Put out.old out.new at result (change_text (Moved from to)) }
    ensures upper_bound { result ≤ at + 24 }
{
    let a = put_named(out, at, b"from ", from);
    let b = put_named(out, a, b" to ", to);
    put_bytes(out, b, b"\n")
}

fn put_alike(out: &mut [u8], at: usize, class: Option<Class>) -> usize
    requires { at + 13 ≤ length out.old }
    ensures put { Put out.old out.new at result (change_text (Alike class)) }
    ensures upper_bound { result ≤ at + 13 }
{
    let a = put_named(out, at, b"same ", class);
    put_bytes(out, a, b"\n")
}

fn put_first(out: &mut [u8], at: usize, first: u64) -> usize
    requires { at + 29 ≤ length out.old }
    ensures put { Put out.old out.new at result (change_text (First first)) }
    ensures upper_bound { result ≤ at + 29 }
{
    let a = put_bytes(out, at, b"steps ");
    let b = put_decimal(out, a, first, 32);
    put_bytes(out, b, b"-\n")
}

fn put_steps(out: &mut [u8], at: usize, first: u64, second: u64) -> usize
    requires { at + 48 ≤ length out.old }
    ensures put { Put out.old out.new at result (change_text (Steps first second)) }
    ensures upper_bound { result ≤ at + 48 }
{
    let a = put_bytes(out, at, b"steps ");
    let b = put_decimal(out, a, first, 32);
    put_decimal(out, b, second, 10)
}

// How the row differs, and the line's end.
pub(crate) fn put_change(out: &mut [u8], at: usize, change: Change) -> usize
    requires { at + 64 ≤ length out.old }
    ensures put { Put out.old out.new at result (change_text change) }
    ensures upper_bound { result ≤ at + 48 }
{
    match change {
        Change::Same => at,
        Change::Moved { from, to } => put_moved(out, at, from, to),
        Change::Alike { class } => put_alike(out, at, class),
        Change::First { first } => put_first(out, at, first),
        Change::Steps { first, second } => put_steps(out, at, first, second),
    }
}
