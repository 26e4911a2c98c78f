// Runs the calls at the edges of the rules, and those of a list of right answers on standard input, and writes for each kind of call how many
// of its answers are right and how many are wrong.
#![tactic(auto)]

mod batch;
mod entry;
mod forms;
mod kind;
mod output;
mod replay;
mod rows;
mod slices;
mod table;
mod tally;

ghost use Rattle.std.specs.Prelude.{◌≤◌, length};

use output::Output;
use std::io;
use std::io::Read;

// How many bytes of the input are read at most: the memory is fixed, without a heap.
const MOST: usize = 262_144;

// Reads until the buffer is full or the input ends, and gives what it read. A read that fails ends the input. `read_exact` would not say how
// far it came, and `read_to_end` needs a heap.
fn read_full<'a>(reader: &mut impl Read, buffer: &'a mut [u8]) -> &'a [u8]
    ensures { length result.now ≤ length buffer.old }
{
    let mut n = 0;
    while n < buffer.len() {
        match reader.read(&mut buffer[n..]) {
            Ok(0) | Err(_) => break,
            Ok(more) => n += more,
        }
    }
    &buffer[..n]
}

fn main(rt: HostRuntime) -> io::Result<()> {
    let mut output = Output::new(rt.stdout());
    rows::write(&mut output);
    let mut buffer = [0u8; MOST];
    let list = read_full(&mut rt.stdin(), &mut buffer);
    replay::write(&mut output, list);
    output.end()
}
