// What is saved.
ghost use Rattle.std.specs.Prelude.{◌≡◌, is_some, IfErr};
ghost use Rattle.std.specs.Result.{is_ok, is_err};
ghost use Rattle.files.specs.Save.{Save};
ghost use Rattle.ending.specs.Outcome.{state_of};
ghost use Rattle.runner.specs.Done.{SomeRun, Savable, Keep, named};

use ending::State;
use files::Unsaved;
use page::LARGEST;

// The one call that saves a file: with the bytes of a run that was read to its end and had no bad line.
fn save_sheet(rt: &HostRuntime, name: &[u8], bytes: &[u8]) -> Result<(), Unsaved>
    requires { Savable bytes.now }
    ensures { Save name.now bytes.now (is_ok result) }
{
    files::save(rt, name, bytes)
}

// The sheet is saved where there is a file for it. On Err it could not be, and that is the file's name.
pub(crate) fn keep<'a>(
    rt: &HostRuntime,
    file: Option<&'a [u8]>,
    end: Result<State, State>,
    sheet: &[u8; LARGEST],
) -> Result<(), &'a [u8]>
    requires { SomeRun (state_of end) sheet.now (is_err end) }
    ensures keeps { Keep (is_some file.entry) (named file.entry) (is_err end) (state_of end) sheet.now (is_ok result) }
    ensures name { IfErr result (λ n. n.now ≡ named file.entry) }
{
    let Some(name) = file else {
        return Ok(());
    };
    let Ok(st) = end else {
        return Ok(());
    };
    if st.bad | (st.lines == 0) {
        return Ok(());
    }
    if save_sheet(rt, name, ending::bytes(st, sheet)).is_err() {
        return Err(name);
    }
    Ok(())
}
