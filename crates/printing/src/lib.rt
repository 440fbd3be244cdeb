// What the program prints for a text.
#![tactic(auto)]

mod refusal;

ghost use Rattle.report.specs.Report.{report_text};
ghost use Rattle.printing.specs.Printed.{Prints, printed_text};

use calls::{line_of, ticket_outcome};
use refusal::print_refusal;
use report::{report_len, write_report};
use standard::judge::Judgement;
use ticket::lines::parse;

// A count, and no Option, as of `printed`: 0 where `out` is too short.
fn print_report(j: Judgement, out: &mut [u8]) -> usize
    ensures { Prints out.old (report_text j) result out.new }
{
    match write_report(out, 0, j) {
        Ok(()) => report_len(j),
        Err(_) => 0,
    }
}

// Puts what the program prints for a text at the start of `out`, and answers how many bytes that is; where `out` is too
// short for it, the answer is 0 and `out` stays. A count, and no Option: so many bytes are written either way.
pub fn printed(text: &[u8], out: &mut [u8]) -> usize
    ensures { Prints out.old (printed_text text.now) result out.new }
{
    let p = parse(text);
    match ticket_outcome(p) {
        Err(e) => print_refusal(u64::from(u32::from(e)), u64::from(line_of(p)), out),
        Ok(j) => print_report(j, out),
    }
}
