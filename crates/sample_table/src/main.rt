// Prints the sample table of the cues of `cues.rec` and `cues.pool`, or why there is none.
// Scale and T stand on standard input. What is made of the system's answers is decided in crates `input` and `report`.
#![tactic(auto)]

ghost use Rattle.std.specs.Prelude.{◌≤◌, length};
ghost use Rattle.sample_table.specs.Reads.{Moved, ByOneRead, ByReads};

use input::{Chunk, Reading, finish, take_read};
use report::{Taken, put_output};
use std::fs;
use std::io::Read;
use std::rt::Files;

// One read: how many bytes it put at the buffer's front, or -1 where it failed.
fn read_once(reader: &mut impl Read, buffer: &mut [u8]) -> isize
    ensures { Moved (length buffer.new) result }
{
    match reader.read(buffer) {
        Ok(n) => n as isize,
        Err(_) => -1,
    }
}

// Reads until the buffer is full, the input ends or a read fails; gives how many bytes stand at the buffer's front.
fn read_full(reader: &mut impl Read, buffer: &mut [u8]) -> usize
    ensures { result ≤ length buffer.new }
{
    let mut done = 0;
    while done < buffer.len() {
        let Ok(n) = reader.read(&mut buffer[done..]) else {
            return done;
        };
        if n == 0 {
            return done;
        }
        done += n;
    }
    done
}

// One read of standard input.
fn read_chunk(input: &mut impl Read, state: Reading) -> Chunk
    ensures { ByOneRead state result }
{
    let mut buffer = [0u8; 65536];
    let got = read_once(input, &mut buffer);
    take_read(state, got, &buffer)
}

// The input line, of which `state` is read. One that takes more than 4294967295 reads is a bad one.
fn read_line(input: &mut impl Read, state: Reading) -> Option<(u32, u32)>
    ensures { ByReads state result }
{
    let mut reached = state;
    for _ in 0..u32::MAX {
        let chunk = read_chunk(input, reached);
        reached = chunk.state;
        if chunk.last {
            return finish(reached);
        }
    }
    None
}

// The start of a file, as much as the buffer holds, and one read more.
fn read_file(files: &impl Files, path: &str, buffer: &mut [u8]) -> Taken
    ensures { (result.n ≤ length buffer.new) × Moved 1 result.more }
{
    let Ok(mut file) = fs::open(files, path) else {
        return Taken {
            fd: -1,
            n: 0,
            more: -1,
        };
    };
    let n = read_full(&mut file, buffer);
    let mut behind = [0u8; 1];
    let more = read_once(&mut file, &mut behind);
    Taken { fd: 0, n, more }
}

// A write that fails changes nothing of the exit status.
fn main(rt: HostRuntime) {
    let line = read_line(&mut rt.stdin(), Reading::Start);
    let mut records = [0u8; 32769];
    let mut pool = [0u8; 32769];
    let mut out = [0u8; 45078];
    let first = read_file(&rt, "cues.rec", &mut records);
    let second = read_file(&rt, "cues.pool", &mut pool);
    let end = put_output(line, first, second, &records, &pool, &mut out);
    let _ = rt.write_all(&out[..end]);
}
