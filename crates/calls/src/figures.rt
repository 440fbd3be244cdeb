// What each call comes to, handed back as floats.
ghost use Rattle.std.specs.Prelude.{◌≡◌};
ghost use Rattle.ticket.specs.Ticket.{ticket_of};
ghost use Rattle.standard.specs.Acceptance.{settings_by};
ghost use Rattle.standard.specs.Figures.{reference_answer, specimen_answer};
ghost use Rattle.station.specs.Record.{decode};
ghost use Rattle.calls.specs.Outcome.{loaded, judged_by};
ghost use Rattle.calls.specs.Line.{line_of, ticket_answer};

use crate::outcome::{judge_outcome, load_outcome, ticket_outcome};
use colour::placed::Reading;
use standard::accept::LoadNumbers;
use standard::figures::{ReferenceAnswer, SpecimenAnswer, reference_answer, specimen_answer};
use ticket::lines::{Parsed, parse};

pub fn load_figures(n: LoadNumbers, r: Reading) -> ReferenceAnswer
    ensures { result ≡ reference_answer (loaded (settings_by n) r) }
{
    reference_answer(load_outcome(n, r))
}

pub fn judge_figures(station: &[u8], r: Reading) -> SpecimenAnswer
    ensures { result ≡ specimen_answer (judged_by (decode station.now) r) }
{
    specimen_answer(judge_outcome(station, r))
}

// The line that a ticket's refusal names: the first wrong one, 0 where the text is right.
pub fn line_of(p: Parsed) -> u32
    ensures { result ≡ line_of p }
{
    match p {
        Ok(_) => 0,
        Err(wrong) => wrong.0,
    }
}

// What a ticket hands back, as C takes it: a judgement's answer, and the number of the first wrong line, 0 for all
// refusals but 7.
#[derive(Clone, Copy)]
pub struct TicketAnswer {
    pub line: u32,
    pub answer: SpecimenAnswer,
}

#[tactic(auto, unfolding(crate::specs::Line::ticket_answer))]
pub fn ticket_figures(text: &[u8]) -> TicketAnswer
    ensures { result ≡ ticket_answer (ticket_of text.now) }
{
    let p = parse(text);
    let line = line_of(p);
    let answer = specimen_answer(ticket_outcome(p));
    TicketAnswer { line, answer }
}
