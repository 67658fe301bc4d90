// The margin program: reads a margin and a table from standard input, and writes the answer to standard output. The answer is
// `printing::answer`; nothing here is more than its input and output.
#![tactic(auto)]

ghost use Rattle.std.specs.Prelude.{◌≤◌, length};

use std::io::{Read, Write};

// Reads until `buf` is full, the input ends or a read fails, and returns how many bytes it put at the start of `buf`. No method of std says the same:
// `read_to_end` needs a heap, and `read_exact` does not tell how many there were.
fn read_full(input: &mut impl Read, buf: &mut [u8]) -> usize
    ensures { result ≤ length buf.new }
{
    let mut done = 0;
    while done < buf.len() {
        match input.read(&mut buf[done..]) {
            Ok(0) | Err(_) => break,
            Ok(n) => done += n,
        }
    }
    done
}

// An input that is too long is read on and dropped, so that its writer can end. An endless one is left after 16,384 reads.
fn skip_rest(input: &mut impl Read) {
    let mut rest = [0u8; 65536];
    for _ in 0..16384 {
        if let Ok(0) | Err(_) = input.read(&mut rest) {
            break;
        }
    }
}

// A write that fails is not reported.
fn main(rt: HostRuntime) {
    // 15 bytes, the 25,625 of the longest table, and one more, which refuses it; no answer is longer than `output`. That neither leaves
    // anything out is proved in printing (`front`, `output-fits`).
    let mut input = [0u8; 25641];
    let mut output = [0u8; 22638];
    let mut stdin = rt.stdin();
    let n = read_full(&mut stdin, &mut input);
    if n == input.len() {
        skip_rest(&mut stdin);
    }
    let m = printing::answer(&input[..n], &mut output);
    let _ = rt.stdout().write_all(&output[..m]);
}
