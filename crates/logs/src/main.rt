// Replays each log that an argument names, and compares every byte that comes out with the file beside it.
#![tactic(auto)]

mod cuts;
mod files;

use files::FILE_BYTES;
use std::env::{Env, FillError};
use std::io;
use std::io::{Print, Stdout};
use std::rt::Files;

// No path is longer.
const PATH_BYTES: usize = 4096;

fn verdict(same: bool) -> &'static str {
    if same { "same" } else { "DIFFERS" }
}

// The log of that name, and the file of the same name that ends in `out`.
fn one(rt: &impl Files, name: &mut [u8]) -> io::Result<&'static str> {
    let mut log = [0u8; FILE_BYTES];
    let log = files::read(rt, name, &mut log)?;
    files::name_output(name);
    let mut expected = [0u8; FILE_BYTES];
    let expected = files::read(rt, name, &mut expected)?;
    Ok(match (log, expected) {
        (None, _) => "NO LOG",
        (_, None) => "NO OUTPUT",
        (Some(log), Some(expected)) => verdict(cuts::all_same(log, expected)),
    })
}

// Whether there is such an argument. One that is too long for a path names no file. (A buffer and its length: `env::args` gives
// text, and a name need not be text.)
fn named(rt: &(impl Env + Files), out: Stdout, i: usize) -> io::Result<bool> {
    let mut path = [0u8; PATH_BYTES];
    let length = match rt.arg(i, &mut path) {
        Ok(length) => length,
        Err(FillError::TooLong) => 0,
        Err(FillError::NotPresent) => return Ok(false),
    };
    let name = &mut path[..length];
    say::text(out, name);
    let said = one(rt, name)?;
    let _ = println!(out; "\t{said}");
    Ok(true)
}

fn main(rt: HostRuntime) -> io::Result<()> {
    let out = rt.stdout();
    for i in 1..usize::MAX {
        if !named(&rt, out, i)? {
            break;
        }
    }
    let said = verdict(cuts::long_line_same());
    let _ = println!(out; "a line of a million bytes\t{said}");
    Ok(())
}
