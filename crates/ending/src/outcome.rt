// What a run has come to, in lent memory, and what is printed of it: the page of its sheet, or one line instead. No input and no output.
ghost use Rattle.std.specs.Prelude.{◌≡◌, ◌≤◌, ℕ, List, length, take};
ghost use Rattle.std.specs.Result.{is_err};
ghost use Rattle.text.specs.Writing.{Put};
ghost use Rattle.page.specs.Page.{page_of};
ghost use Rattle.ending.specs.Outcome.{instead_of, state_of, text_of};

use page::{LARGEST, ROOM};

// How many lines were taken, how many bytes of the next are held (84: too many), the sheet's bytes, whether there is a sheet, and whether the last line was bad.
// Kept: no enum of what it stands at, as `start_of`, `between`, `Begins` and the laws of `runner` (Holding, Steps, Lines) speak of these fields one by one.
#[derive(Clone, Copy)]
pub struct State {
    pub lines: u64,
    pub held: usize,
    pub size: usize,
    pub begun: bool,
    pub bad: bool,
}

// A way to print a sheet.
pub trait Page {
    // The text of a sheet's bytes.
    ghost text: { List ℕ → List ℕ };

    // It is put at the start of the buffer: its length.
    fn put(out: &mut [u8; ROOM], sheet: &[u8]) -> usize
        ensures put { Put out.old out.new 0 result (text sheet.now) }
        ensures upper_bound { result ≤ length out.new };
}

// The page of the leg sheet.
pub struct Legs;

impl Page for Legs {
    ghost text = { page_of };

    fn put(out: &mut [u8; ROOM], sheet: &[u8]) -> usize {
        page::put_page(out, sheet)
    }
}

// The sheet's bytes. A state from elsewhere may hold a size that is past the memory.
pub fn bytes(st: State, sheet: &[u8; LARGEST]) -> &[u8]
    ensures { result.now ≡ take st.size sheet.now }
{
    &sheet[..st.size.min(LARGEST)]
}

// The line that is printed instead of a page, where a line was bad, or a read failed, which is the Err, at the start of the buffer: its length.
// Kept: the answer is a length, as the clauses put and upper_bound say.
pub fn put_instead(end: Result<State, State>, out: &mut [u8; ROOM]) -> usize
    ensures put { Put out.old out.new 0 result (instead_of (is_err end) (state_of end).lines) }
    ensures upper_bound { result ≤ length out.new }
{
    match end {
        Ok(st) => page::put_bad(out, st.lines),
        Err(st) => page::put_failed(out, st.lines),
    }
}

// What is printed in the end, at the start of the buffer: its length. After a failed read nothing of the sheet is printed.
// Kept: the answer is a length, as the clauses put and upper_bound say.
pub(crate) fn put_text<P: Page>(
    end: Result<State, State>,
    sheet: &[u8; LARGEST],
    out: &mut [u8; ROOM],
) -> usize
    ensures put { Put out.old out.new 0 result (text_of P.text (is_err end) (state_of end) sheet.now) }
    ensures upper_bound { result ≤ length out.new }
{
    match end {
        Err(_) => put_instead(end, out),
        Ok(st) if st.bad => put_instead(end, out),
        Ok(st) => P::put(out, bytes(st, sheet)),
    }
}
