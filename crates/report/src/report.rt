// The report and its line writer. Each part has its length beside its writer: the room is tested before a byte is
// written.
ghost use Rattle.std.specs.Prelude.{◌≡◌, ◌≤◌, length};
ghost use Rattle.text.specs.Put.{Room, Puts, put_at, joined};
ghost use Rattle.report.specs.Report.{setting_lines, figure_lines, word_lines, report_text};
ghost use Rattle.report.specs.Write.{Reported};
ghost use Rattle.colour.specs.Refusal.{refusal_of};

use colour::refusal::Refusal;
use lines::numbers::{
    figure_len, figure_of, put_chromatic, put_number, signed_figure, signed_len, thousandths_len,
    thousandths_of,
};
use lines::words::{Unless, hue_len, put_hue, put_word, word_len};
use sheet::differences::Differences;
use sheet::settings::Settings;
use standard::judge::Judgement;

// formula=, white=, l= and c=, each with its LF, are 22 bytes.
fn settings_len(s: Settings) -> usize
    ensures { (result ≡ length (joined (setting_lines s))) × (result ≤ 84) }
{
    22 + word_len(s.formula) + word_len(s.white) + thousandths_len(s.l) + thousandths_len(s.c)
}

fn put_settings(dst: &mut [u8], at: usize, s: Settings) -> usize
    requires { Room dst.old at (joined (setting_lines s)) }
    ensures { Puts dst.old at (joined (setting_lines s)) result dst.new }
{
    let after_formula = put_word(dst, at, b"formula=", s.formula);
    let after_white = put_word(dst, after_formula, b"white=", s.white);
    let after_l = put_number(dst, after_white, b"l=", thousandths_of(s.l));
    put_number(dst, after_l, b"c=", thousandths_of(s.c))
}

fn figures_len(withheld: bool, d: Differences) -> usize
    ensures { (result ≡ length (joined (figure_lines withheld d))) × (result ≤ 120) }
{
    let always = 4 + figure_len(d.DE) + 4 + signed_len(d.DL);
    if withheld {
        return always + 24;
    }
    always + 4 + signed_len(d.DC) + 4 + signed_len(d.DH)
}

fn put_figures(dst: &mut [u8], at: usize, withheld: bool, d: Differences) -> usize
    requires { Room dst.old at (joined (figure_lines withheld d)) }
    ensures { Puts dst.old at (joined (figure_lines withheld d)) result dst.new }
{
    let after_DE = put_number(dst, at, b"DE=", figure_of(false, d.DE));
    let after_DL = put_number(dst, after_DE, b"DL=", signed_figure(d.DL));
    let after_DC = put_chromatic(dst, after_DL, withheld, b"DC=", signed_figure(d.DC));
    put_chromatic(dst, after_DC, withheld, b"DH=", signed_figure(d.DH))
}

// lightness=, chroma=, hue= and verdict=, each with its LF, are 33 bytes.
fn words_len(j: Judgement) -> usize
    ensures { (result ≡ length (joined (word_lines j))) × (result ≤ 70) }
{
    let chroma = Unless {
        withheld: j.withheld,
        word: j.chroma,
    };
    33 + word_len(j.lightness) + word_len(chroma) + hue_len(j.withheld, j.hue) + word_len(j.verdict)
}

fn put_words(dst: &mut [u8], at: usize, j: Judgement) -> usize
    requires { Room dst.old at (joined (word_lines j)) }
    ensures { Puts dst.old at (joined (word_lines j)) result dst.new }
{
    let chroma = Unless {
        withheld: j.withheld,
        word: j.chroma,
    };
    let after_lightness = put_word(dst, at, b"lightness=", j.lightness);
    let after_chroma = put_word(dst, after_lightness, b"chroma=", chroma);
    let after_hue = put_hue(dst, after_chroma, j.withheld, j.hue);
    put_word(dst, after_hue, b"verdict=", j.verdict)
}

// How many bytes the report takes.
pub fn report_len(j: Judgement) -> usize
    ensures { result ≡ length (report_text j) }
{
    settings_len(j.standard.settings)
        + figures_len(j.withheld, j.comparison.differences)
        + words_len(j)
}

// The line writer: the report goes to the start of the part that it is lent.
fn write_lines(part: &mut [u8], j: Judgement)
    requires { Room part.old 0 (report_text j) }
    ensures { part.new ≡ put_at part.old 0 (report_text j) }
{
    let after_settings = put_settings(part, 0, j.standard.settings);
    let after_figures = put_figures(part, after_settings, j.withheld, j.comparison.differences);
    put_words(part, after_figures, j);
}

// Writes the report into `room` from index `column` on; or refuses and writes nothing, where from there on there is too
// little room.
#[tactic(auto, unfolding(crate::specs::Write::has_room))]
pub fn write_report(room: &mut [u8], column: usize, j: Judgement) -> Result<(), Refusal>
    ensures { Reported room.old column j (refusal_of result) room.new }
{
    if room.len() < column || room.len() - column < report_len(j) {
        return Err(Refusal::Length);
    }
    write_lines(&mut room[column..], j);
    Ok(())
}
