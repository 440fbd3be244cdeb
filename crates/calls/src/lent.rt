// Calls on slices that the host lends. A refused call writes nothing.
ghost use Rattle.colour.specs.Refusal.{refusal_of};
ghost use Rattle.calls.specs.Calls.{Gives, load_call, reported, judge_call, ticket_call};
ghost use Rattle.calls.specs.Runs.{AsFresh};

use crate::outcome::{judge_outcome, load_outcome, ticket_outcome};
use colour::placed::Reading;
use colour::refusal::Refusal;
use report::write_report;
use standard::accept::LoadNumbers;
use standard::judge::Outcome;
use station::store;
use ticket::lines::parse;

// Loads a standard into the station's slice. Taken into its two callers, the library's entries, which do nothing else.
#[inline]
pub fn load_call(station: &mut [u8], n: LoadNumbers, r: Reading) -> Result<(), Refusal>
    ensures { Gives (load_call station.old n.formula n.white n.l n.c n.tolerance r)
        (refusal_of result) station.new }
{
    let s = load_outcome(n, r)?;
    if store(s, station) {
        Ok(())
    } else {
        Err(Refusal::Length)
    }
}

// Writes the report of a judgement into `room` from index `column` on.
fn report_on(o: Outcome, room: &mut [u8], column: usize) -> Result<(), Refusal>
    ensures { Gives (reported o room.old column) (refusal_of result) room.new }
{
    write_report(room, column, o?)
}

// Judges a test specimen by the standard in the station's slice, and writes the report. After any run of calls from
// zeros the answer and the room are those of a freshly started station that was given the last accepted standard alone.
pub fn judge_call(station: &[u8], r: Reading, room: &mut [u8], column: usize) -> Result<(), Refusal>
    ensures gives { Gives (judge_call station.now r room.old column) (refusal_of result) room.new }
    ensures run { AsFresh station.now r room.old column (refusal_of result) room.new }
{
    report_on(judge_outcome(station, r), room, column)
}

// Judges a ticket from a fresh station, and writes the report: no loaded standard is read or changed.
pub fn ticket_call(text: &[u8], room: &mut [u8], column: usize) -> Result<(), Refusal>
    ensures { Gives (ticket_call text.now room.old column) (refusal_of result) room.new }
{
    report_on(ticket_outcome(parse(text)), room, column)
}
