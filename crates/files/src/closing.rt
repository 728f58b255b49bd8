// A file that is there, closed.
ghost use Rattle.std.specs.Fd.{file_raw_fd};
ghost use Rattle.files.specs.Calls.{Called, closes};

use std::fs::File;
use std::mem::drop;

// The one place where a file is closed: a failure of that is lost.
pub fn close(file: File)
    ensures { Called (closes (file_raw_fd file)) }
{
    drop(file);
}
