// The line that a refusal prints.
ghost use Rattle.text.specs.Put.{Room, Puts};
ghost use Rattle.printing.specs.Printed.{Prints, refusal_line};

use text::decimal::{put_whole, whole_len};
use text::put::put;

fn put_refusal(dst: &mut [u8], number: u64, line: u64) -> usize
    requires { Room dst.old 0 (refusal_line number line) }
    ensures { Puts dst.old 0 (refusal_line number line) result dst.new }
{
    let after_refused = put(dst, 0, b"refused=");
    let after_number = put_whole(dst, after_refused, number);
    let after_key = put(dst, after_number, b" line=");
    let after_line = put_whole(dst, after_key, line);
    put(dst, after_line, b"\n")
}

// Puts the line at the start of `out`, and answers how many bytes that is; where `out` is too short for it, the answer
// is 0 and `out` stays. A count, and no Option, as of `printed`.
pub(crate) fn print_refusal(number: u64, line: u64, out: &mut [u8]) -> usize
    ensures { Prints out.old (refusal_line number line) result out.new }
{
    if out.len() < 8 + whole_len(number) + 6 + whole_len(line) + 1 {
        return 0;
    }
    put_refusal(out, number, line)
}
