// The lines of a ticket, one after the other.
ghost use Rattle.std.specs.Prelude.{◌≡◌, ◌+◌, ◌≤◌, IfOk, Ok};
ghost use Rattle.sheet.specs.declared.settings.Settings.{Settings};
ghost use Rattle.text.specs.Bytes.{after};
ghost use Rattle.ticket.specs.Ticket.{factor_lines, tol_line, space_line, ticket_of};
ghost use Rattle.ticket.specs.Ticket.Laws.{value_of, formula_line, GoesOn, Next, factors_then, settings_then};

use crate::value::{formula_named, reading_of, space_named, white_named};
use colour::placed::{Space, Written};
use sheet::settings::Settings;
use text::bytes::{find, part_after, starts};
use text::number::thousandths;

#[derive(Clone, Copy)]
pub struct Ticket {
    pub settings: Settings,
    pub reference: Written,
    pub test: Written,
}

// The number of the first wrong line, or 0 for a text that is too long: so it is printed.
#[derive(Clone, Copy, Debug, PartialEq, Eq)]
pub struct WrongLine(pub u32);

// The ticket, or its first wrong line.
pub type Parsed = Result<Ticket, WrongLine>;

// What is left of a text, and the number of its first line.
#[derive(Clone, Copy)]
struct Rest<'a> {
    text: &'a [u8],
    line: u32,
}

impl<'a> Rest<'a> {
    // The value of the first line, if it has this key and its LF; else nothing, which is no line's value.
    fn value(self, key: &[u8]) -> &'a [u8]
        ensures { result.now ≡ value_of key.now self.entry.text.now }
    {
        let end = find(self.text, b'\n');
        if self.text.len() <= end {
            return &self.text[..0];
        }
        match self.text[..end].strip_prefix(key) {
            Some(value) => value,
            None => &self.text[..0],
        }
    }

    // The first line is wrong.
    fn wrong(self) -> WrongLine
        ensures { result.0 ≡ self.entry.line }
    {
        WrongLine(self.line)
    }

    // What is left after the first line.
    fn next(self) -> Rest<'a>
        requires { self.line ≤ 8 }
        ensures text { result.text.now ≡ after 10 self.entry.text.now }
        ensures line { result.line ≡ self.entry.line + 1 }
    {
        Rest {
            text: part_after(self.text, b'\n'),
            line: self.line + 1,
        }
    }
}

// l and c where both their lines are missing, in thousandths.
const MISSING_L: u64 = 2000;

const MISSING_C: u64 = 1000;

// The settings with l and c filled in, and what is left after their lines. A line tol= here says that both are missing:
// the blank form has what that means. What comes next has no part in it (`one`): a wrong line is wrong here.
fn factor_lines(blank: Settings, rest: Rest) -> Result<(Settings, Rest), WrongLine>
    requires { rest.line ≤ 3 }
    ensures line { IfOk result (λ x. x.1.line ≤ 5) }
    ensures value { GoesOn (factor_lines rest.entry.line blank rest.entry.text.now) result
        (λ x. tol_line x.1.line x.0 x.1.text.now) }
    ensures one { (next : Next) → GoesOn (factors_then next rest.entry.line blank rest.entry.text.now) result
        (λ x. next x.1.line x.0 x.1.text.now) }
{
    if starts(rest.text, b"tol=") {
        return Ok((blank, rest));
    }
    let l = thousandths(rest.value(b"l=")).ok_or(rest.wrong())?;
    let rest = rest.next();
    let c = thousandths(rest.value(b"c=")).ok_or(rest.wrong())?;
    Ok((Settings { l, c, ..blank }, rest.next()))
}

// The settings, and what is left after their lines.
fn setting_lines(rest: Rest) -> Result<(Settings, Rest), WrongLine>
    requires { rest.line ≤ 1 }
    ensures line { IfOk result (λ x. x.1.line ≤ 6) }
    ensures value { GoesOn (formula_line rest.entry.line rest.entry.text.now) result
        (λ x. space_line x.1.line x.0 x.1.text.now) }
    ensures one { (next : Next) → GoesOn (settings_then next rest.entry.line rest.entry.text.now) result
        (λ x. next x.1.line x.0 x.1.text.now) }
{
    let formula = formula_named(rest.value(b"formula=")).ok_or(rest.wrong())?;
    let rest = rest.next();
    let white = white_named(rest.value(b"white=")).ok_or(rest.wrong())?;
    // The tolerance is filled in by its line, which no ticket lacks.
    let blank = Settings {
        formula,
        white,
        l: MISSING_L,
        c: MISSING_C,
        tolerance: 0,
    };
    let (settings, rest) = factor_lines(blank, rest.next())?;
    let tolerance = thousandths(rest.value(b"tol=")).ok_or(rest.wrong())?;
    let settings = Settings {
        tolerance,
        ..settings
    };
    Ok((settings, rest.next()))
}

// The two readings, of one space, after which nothing follows.
fn reading_lines(rest: Rest) -> Result<(Written, Written), WrongLine>
    requires { rest.line ≤ 6 }
    ensures { (p : Settings) → GoesOn (space_line rest.entry.line p rest.entry.text.now) result
        (λ x. Ok (record { settings = p; reference = x.0; test = x.1 })) }
{
    let space = space_named(rest.value(b"space=")).ok_or(rest.wrong())?;
    let rest = rest.next();
    let reference = reading_of(rest.value(b"ref="), space).ok_or(rest.wrong())?;
    let rest = rest.next();
    let test = reading_of(rest.value(b"test="), space).ok_or(rest.wrong())?;
    let rest = rest.next();
    if rest.text.is_empty() {
        Ok((reference, test))
    } else {
        Err(rest.wrong())
    }
}

// The ticket, or the number of the first wrong line.
pub fn parse(text: &[u8]) -> Parsed
    ensures { result ≡ ticket_of text.now }
{
    if 4096 < text.len() {
        return Err(WrongLine(0));
    }
    let (settings, rest) = setting_lines(Rest { text, line: 1 })?;
    let (reference, test) = reading_lines(rest)?;
    Ok(Ticket {
        settings,
        reference,
        test,
    })
}
