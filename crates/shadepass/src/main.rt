// shadepass: prints the report of the ticket on standard input, or the line of its refusal.
#![tactic(auto)]

ghost use Rattle.std.specs.Prelude.{◌≤◌, length, take};
ghost use Rattle.std.specs.Io.KnownBytes.{Consumes};

use printing::printed;
use std::io;
use std::io::Read;

// Reads until `buf` is full, the input ends or a read fails, and answers how many bytes that put at the start of `buf`:
// the next ones of the input, none left out.
// By hand: `read_to_end` fills a Vec, and `read_exact` and `io::copy` lose the count of what came before a failed read.
fn read_start<R: Read>(reader: &mut R, buf: &mut [u8]) -> usize
    ensures in_bounds { result ≤ length buf.new }
    ensures bytes { Consumes (R.remaining reader.old) (R.remaining reader.new) (take result buf.new) }
{
    let mut done = 0;
    while done < buf.len() {
        match reader.read(&mut buf[done..]) {
            Ok(0) | Err(_) => break,
            Ok(n) => done += n,
        }
    }
    done
}

fn main(rt: HostRuntime) -> io::Result<()> {
    // One byte more than a ticket may have shows a text that is too long, without reading the rest of it
    // (`printed-start` of `printing`).
    let mut text = [0u8; 4097];
    let n = read_start(&mut rt.stdin(), &mut text);
    // The longest report.
    let mut out = [0u8; 161];
    let k = printed(&text[..n], &mut out);
    rt.write_all(&out[..k])
}
