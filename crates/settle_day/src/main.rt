//! Reads one day file from standard input, and writes the text for it to standard output.
#![tactic(auto)]

ghost use Rattle.std.specs.Prelude.{◌≤◌, length, IfOk};

use rules::LONGEST_FILE;
use runner::run;
use std::io;
use std::io::{Read, Write};

// One byte more than the longest day file has: what is longer is seen to be so.
const MOST_READ: usize = LONGEST_FILE + 1;

// Fills the buffer as far as the input goes, and answers how far.
fn read_input(rt: &HostRuntime, buf: &mut [u8]) -> io::Result<usize>
    ensures { IfOk result (λ n. n ≤ length buf.old) }
{
    let mut input = rt.stdin();
    let mut len = 0;
    // No `read_to_end`: it asks for memory, and for fewer bytes at a time than a packet of a pipe or a socket may have,
    // the rest of which is then lost.
    while len < buf.len() {
        let n = input.read(&mut buf[len..])?;
        if n == 0 {
            break;
        }
        len += n;
    }
    Ok(len)
}

fn main(rt: HostRuntime) -> io::Result<()> {
    let mut file = [0; MOST_READ];
    let len = read_input(&rt, &mut file)?;
    let text = run(rt.alloc(), &file[..len])?;
    rt.stdout().write_all(text.as_slice())
}
