// What each call comes to: it places its readings, and has them accepted and judged.
ghost use Rattle.std.specs.Prelude.{◌≡◌};
ghost use Rattle.standard.specs.Acceptance.{settings_by};
ghost use Rattle.station.specs.Record.{decode};
ghost use Rattle.calls.specs.Outcome.{loaded, judged_by, ticket_outcome};

use colour::placed::{Reading, place};
use colour::refusal::Refusal;
use standard::accept::{Acceptance, LoadNumbers, accept, settings_of};
use standard::judge::{Outcome, judge};
use station::read;
use ticket::lines::Parsed;

// A load. Its reference is read in the white that it names.
#[tactic(auto, unfolding(crate::specs::Outcome::loaded))]
pub(crate) fn load_outcome(n: LoadNumbers, r: Reading) -> Acceptance
    ensures { result ≡ loaded (settings_by n) r }
{
    let s = settings_of(n)?;
    accept(s, place(r, s.white))
}

// A judgement by what the station's slice holds.
#[tactic(auto, unfolding(crate::specs::Outcome::judged_by))]
pub(crate) fn judge_outcome(station: &[u8], r: Reading) -> Outcome
    ensures { result ≡ judged_by (decode station.now) r }
{
    let s = read(station).ok_or(Refusal::NoStandard)?;
    judge(s, place(r, s.settings.white))
}

// A ticket by its text, parsed: a load, and then a judgement by what it brings. It neither reads nor changes a loaded
// standard. No `?` for the text: what it hands on would be copied before the first line is known to be wrong.
#[tactic(auto, unfolding(crate::specs::Outcome::ticket_outcome))]
pub fn ticket_outcome(p: Parsed) -> Outcome
    ensures { result ≡ ticket_outcome p }
{
    let Ok(t) = p else {
        return Err(Refusal::Ticket);
    };
    let white = t.settings.white;
    let s = accept(t.settings, place(t.reference, white))?;
    judge(s, place(t.test, white))
}
