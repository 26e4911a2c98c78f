// Answers the records on standard input, in order and to its end, on standard output.
#![tactic(auto)]

ghost use Rattle.std.specs.Prelude.{◌≤◌, length, IfOk};

use anyhow::{Context, Result};
use records::{ANSWER, RECORD};
use std::io;
use std::io::{Read, Write};
use std::process::ExitCode;

// The bytes of 4,096 records, and of their answers: the memory is fixed, without a heap.
const INPUT: usize = 4_096 * RECORD;

const OUTPUT: usize = 4_096 * ANSWER;

// Reads until the buffer is full or the input ends, however few bytes each read brings: how many came. `read_exact` would not say how far it
// came, and `read_to_end` needs a heap.
fn fill(reader: &mut impl Read, buffer: &mut [u8]) -> io::Result<usize>
    ensures { IfOk result (λ n. n ≤ length buffer.new) }
{
    let mut n = 0;
    while n < buffer.len() {
        match reader.read(&mut buffer[n..])? {
            0 => break,
            more => n += more,
        }
    }
    Ok(n)
}

// Writes the answers to all the records of the input.
fn answer(writer: &mut impl Write, input: &[u8], output: &mut [u8]) -> Result<()> {
    let size = records::many(input, output)
        .ok()
        .context("no room for the answers")?;
    writer.write_all(&output[..size as usize]).context("write")
}

// One turn: whole records as long as the input goes on, then what is left of it. Says whether to go on. The answers to
// whole records, followed by those to the rest, are the answers to all (`answers-append` of records).
fn turn(
    reader: &mut impl Read,
    writer: &mut impl Write,
    input: &mut [u8],
    output: &mut [u8],
) -> Result<bool> {
    let n = fill(reader, input).context("read")?;
    answer(writer, &input[..n], output)?;
    Ok(n == input.len())
}

// A proved loop has to end, and nothing says that the input does: the turns are counted to a number that no run uses up.
fn run(reader: &mut impl Read, writer: &mut impl Write) -> Result<()> {
    let mut input = [0u8; INPUT];
    let mut output = [0u8; OUTPUT];
    for _ in 0..u64::MAX {
        if !turn(reader, writer, &mut input, &mut output)? {
            break;
        }
    }
    Ok(())
}

fn main(rt: HostRuntime) -> ExitCode {
    match run(&mut rt.stdin(), &mut rt.stdout()) {
        Ok(()) => ExitCode::SUCCESS,
        Err(e) => {
            let _ = eprintln!(rt; "{e:#}");
            ExitCode::FAILURE
        }
    }
}
