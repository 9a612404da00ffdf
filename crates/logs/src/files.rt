// The files of a log.
ghost use Rattle.std.specs.Prelude.{◌≤◌, IfOk, length};

use std::fs::File;
use std::io::Read;
use std::rt::Files;
use std::{io, str};

// No log, and nothing that is owed for one, is longer.
pub(crate) const FILE_BYTES: usize = 65536;

// Reads until the buffer is full or the input ends. (A while: `read_to_end` wants a `Vec`, and past `io::copy` into a `Cursor`
// nothing says that it is still this buffer.)
fn fill(input: &mut impl Read, buffer: &mut [u8]) -> io::Result<usize>
    ensures { IfOk result (λ n. n ≤ length buffer.new) }
{
    let mut done = 0;
    while done < buffer.len() {
        let n = input.read(&mut buffer[done..])?;
        if n == 0 {
            break;
        }
        done += n;
    }
    Ok(done)
}

// The file's bytes, where there is such a file, in the front of the buffer. (Lent, and no `Vec`: nothing is asked of the heap.)
pub(crate) fn read<'a>(
    rt: &impl Files,
    path: &[u8],
    buffer: &'a mut [u8],
) -> io::Result<Option<&'a [u8]>> {
    let Ok(name) = str::from_utf8(path) else {
        return Ok(None);
    };
    let Ok(mut file) = File::open(rt, name) else {
        return Ok(None);
    };
    let read = fill(&mut file, buffer)?;
    Ok(Some(&buffer[..read]))
}

// NAME.log becomes NAME.out.
pub(crate) fn name_output(path: &mut [u8]) {
    if let Some(at) = path.len().checked_sub(3) {
        path[at..].copy_from_slice(b"out");
    }
}
