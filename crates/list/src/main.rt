// Prints what a dump on standard input holds: totals and entries, or the refusal.
#![tactic(auto)]

ghost use Rattle.std.specs.Prelude.{◌≤◌, length, IfOk, IfSome};
ghost use Rattle.list.specs.Input.{IsPrefixLen, IsRead, PrintsText};

use std::io::{self, Read};

// One byte more than the longest dump that is right: all longer dumps have the same text.
const INPUT_BYTES: usize = 65537;

// Room for every text.
const TEXT_BYTES: usize = 102600;

// Lays the text of a dump into an output that has room for every text; its length. The dump's bytes are the first n of the input: all of them, or as many as it holds.
fn text_of(input: &[u8], n: usize, out: &mut [u8]) -> usize
    requires { (n ≤ length input.now) × (65537 ≤ length input.now) × (102600 ≤ length out.old) }
    ensures prefix_len { IsPrefixLen result out.new }
    ensures prints_text { PrintsText input.now n out.old result out.new }
{
    // the output is never too short
    dump::list_text(&input[..n], out).unwrap_or(0)
}

// Reads until the input is full or the reader ends; how many bytes it read, which stand at the front of the input. Of a reader that tells its bytes they are the first.
// A loop of its own: `read_exact` refuses an input that ends early, and `read_to_end` fills a Vec, where memory is fixed.
fn read_full<R: Read>(reader: &mut R, input: &mut [u8]) -> io::Result<usize>
    ensures prefix_len { IfOk result (λ n. IsPrefixLen n input.new) }
    ensures reads { IfOk result (λ n. IfSome (R.remaining reader.old) (λ dump. IsRead dump input.new n)) }
{
    let mut at = 0;
    while at < input.len() {
        let got = reader.read(&mut input[at..])?;
        if got == 0 {
            return Ok(at);
        }
        at += got;
    }
    Ok(at)
}

// Reads a dump and prints its text by one write.
fn main(rt: HostRuntime) -> io::Result<()> {
    let mut input = [0u8; INPUT_BYTES];
    let n = read_full(&mut rt.stdin(), &mut input)?;
    let mut out = [0u8; TEXT_BYTES];
    let length = text_of(&input, n, &mut out);
    Print::write_all(&rt, &out[..length])
}
