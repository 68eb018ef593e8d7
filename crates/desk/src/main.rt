// The program: an option line and a sheet from standard input; the answer's numbers and its text to standard output.
#![tactic(auto)]

ghost use Rattle.std.specs.Prelude.{◌≤◌, IfOk, length};

use printing::{LONGEST, ROOM, print};
use std::io::{self, Print, Read};

// Fills `buf`, as far as what there is to read reaches: how many bytes.
fn read_full<R: Read>(from: &mut R, buf: &mut [u8]) -> io::Result<usize>
    ensures { IfOk result (λ n. n ≤ length buf.new) }
{
    let mut n: usize = 0;
    while n < buf.len() {
        let k = from.read(&mut buf[n..])?;
        if k == 0 {
            return Ok(n);
        }
        n += k;
    }
    Ok(n)
}

fn main(rt: HostRuntime) -> io::Result<()> {
    // One byte more than is taken, so that a longer input is seen.
    let mut input = [0u8; ROOM + 1];
    let mut printed = [0u8; LONGEST];
    let len = read_full(&mut rt.stdin(), &mut input)?;
    let end = print(&input[..len], &mut printed);
    rt.write_all(&printed[..end])
}
