// The lines that say a word: how many bytes the word takes, and the line put into a lent slice.
ghost use Rattle.std.specs.Prelude.{◌≡◌, ℕ, ◌≤◌, List, length, max};
ghost use Rattle.std.proofs.Common.{rules};
ghost use Rattle.text.specs.Ascii.{ascii};
ghost use Rattle.text.specs.Names.{formula_name, white_name};
ghost use Rattle.text.specs.Put.{Room, Puts, joined, line};
ghost use Rattle.lines.specs.Lines.{lightness_word, chroma_word, axis_word, hue_word, verdict_word, unless_withheld};
ghost use Rattle.lines.specs.Lines.Laws.{axes_pieces};
ghost use Rattle.lines.specs.Lines.Words.{formula_most, white_most, lightness_most, chroma_most, axis_most, verdict_most, unless_most};

use colour::white::White;
use names::{Axis, Chroma, Hue, Lightness};
use sheet::formula::Formula;
use sheet::verdict::Verdict;
use text::put::put;

// What is said by one word of a few.
pub trait Word: Copy {
    ghost word: { Self → List ℕ };

    // How many bytes the longest of the words has.
    ghost most: { ℕ };

    fn text(self) -> &'static [u8]
        ensures { result.now ≡ word self };

    ghost at_most: { (x : Self) → length (word x) ≤ most };

    // Puts the word. An arm for each, beside those of `text`: a text that is known where it is put is a few stores, and
    // one that was chosen before goes byte by byte.
    fn put_text(self, dst: &mut [u8], at: usize) -> usize
        requires { Room dst.old at (word self) }
        ensures { Puts dst.old at (word self) result dst.new };
}

impl Word for Formula {
    ghost word = { formula_name };

    ghost most = { 6 };

    ghost at_most = { formula_most };

    fn text(self) -> &'static [u8] {
        match self {
            Formula::CIELAB => b"CIELAB",
            Formula::CIE94 => b"CIE94",
            Formula::CMC => b"CMC",
        }
    }

    fn put_text(self, dst: &mut [u8], at: usize) -> usize {
        match self {
            Formula::CIELAB => put(dst, at, b"CIELAB"),
            Formula::CIE94 => put(dst, at, b"CIE94"),
            Formula::CMC => put(dst, at, b"CMC"),
        }
    }
}

impl Word for White {
    ghost word = { white_name };

    ghost most = { 6 };

    ghost at_most = { white_most };

    fn text(self) -> &'static [u8] {
        match self {
            White::D65Ten => b"D65/10",
            White::D65Two => b"D65/2",
            White::CTen => b"C/10",
            White::CTwo => b"C/2",
        }
    }

    fn put_text(self, dst: &mut [u8], at: usize) -> usize {
        match self {
            White::D65Ten => put(dst, at, b"D65/10"),
            White::D65Two => put(dst, at, b"D65/2"),
            White::CTen => put(dst, at, b"C/10"),
            White::CTwo => put(dst, at, b"C/2"),
        }
    }
}

impl Word for Lightness {
    ghost word = { lightness_word };

    ghost most = { 7 };

    ghost at_most = { lightness_most };

    fn text(self) -> &'static [u8] {
        match self {
            Lightness::Lighter => b"lighter",
            Lightness::Darker => b"darker",
            Lightness::Equal => b"equal",
        }
    }

    fn put_text(self, dst: &mut [u8], at: usize) -> usize {
        match self {
            Lightness::Lighter => put(dst, at, b"lighter"),
            Lightness::Darker => put(dst, at, b"darker"),
            Lightness::Equal => put(dst, at, b"equal"),
        }
    }
}

impl Word for Chroma {
    ghost word = { chroma_word };

    ghost most = { 5 };

    ghost at_most = { chroma_most };

    fn text(self) -> &'static [u8] {
        match self {
            Chroma::More => b"more",
            Chroma::Less => b"less",
            Chroma::Equal => b"equal",
        }
    }

    fn put_text(self, dst: &mut [u8], at: usize) -> usize {
        match self {
            Chroma::More => put(dst, at, b"more"),
            Chroma::Less => put(dst, at, b"less"),
            Chroma::Equal => put(dst, at, b"equal"),
        }
    }
}

impl Word for Axis {
    ghost word = { axis_word };

    ghost most = { 8 };

    ghost at_most = { axis_most };

    fn text(self) -> &'static [u8] {
        match self {
            Axis::Redder => b"redder",
            Axis::Yellower => b"yellower",
            Axis::Greener => b"greener",
            Axis::Bluer => b"bluer",
        }
    }

    fn put_text(self, dst: &mut [u8], at: usize) -> usize {
        match self {
            Axis::Redder => put(dst, at, b"redder"),
            Axis::Yellower => put(dst, at, b"yellower"),
            Axis::Greener => put(dst, at, b"greener"),
            Axis::Bluer => put(dst, at, b"bluer"),
        }
    }
}

impl Word for Verdict {
    ghost word = { verdict_word };

    ghost most = { 4 };

    ghost at_most = { verdict_most };

    fn text(self) -> &'static [u8] {
        match self {
            Verdict::Near => b"near",
            Verdict::Pass => b"pass",
            Verdict::Fail => b"fail",
        }
    }

    fn put_text(self, dst: &mut [u8], at: usize) -> usize {
        match self {
            Verdict::Near => put(dst, at, b"near"),
            Verdict::Pass => put(dst, at, b"pass"),
            Verdict::Fail => put(dst, at, b"fail"),
        }
    }
}

// A word that may be withheld. Both, and no Option: a judgement hands its word back, whatever a report withholds.
#[derive(Clone, Copy)]
pub struct Unless<W> {
    pub withheld: bool,
    pub word: W,
}

impl<W: Word> Word for Unless<W> {
    ghost word = { λ u. unless_withheld u.withheld (W.word u.word) };

    ghost most = { max 8 W.most };

    ghost at_most = { λ u. unless_most u.withheld _ (W.at_most u.word) };

    fn text(self) -> &'static [u8] {
        if self.withheld {
            b"withheld"
        } else {
            self.word.text()
        }
    }

    fn put_text(self, dst: &mut [u8], at: usize) -> usize {
        if self.withheld {
            put(dst, at, b"withheld")
        } else {
            self.word.put_text(dst, at)
        }
    }
}

pub fn word_len<W: Word>(w: W) -> usize
    ensures { (result ≡ length (W.word w)) × (result ≤ W.most) }
{
    w.text().len()
}

// dst and at by themselves: a cursor that holds both would have each contract add that it still lends the same slice.
pub(crate) fn put_line(dst: &mut [u8], at: usize, key: &[u8], value: &[u8]) -> usize
    requires { Room dst.old at (line key.now value.now) }
    ensures { Puts dst.old at (line key.now value.now) result dst.new }
{
    let after_key = put(dst, at, key);
    let after_value = put(dst, after_key, value);
    put(dst, after_value, b"\n")
}

pub fn put_word<W: Word>(dst: &mut [u8], at: usize, key: &[u8], w: W) -> usize
    requires { Room dst.old at (line key.now (W.word w)) }
    ensures { Puts dst.old at (line key.now (W.word w)) result dst.new }
{
    let after_key = put(dst, at, key);
    let after_word = w.put_text(dst, after_key);
    put(dst, after_word, b"\n")
}

// A hue says two axes with a bracket, so it is no `Word`: it is put from theirs.
fn put_axes(dst: &mut [u8], at: usize, name: Axis, bracket: Axis) -> usize
    requires { Room dst.old at (joined (axes_pieces name bracket)) }
    ensures { Puts dst.old at (joined (axes_pieces name bracket)) result dst.new }
{
    let after_key = put(dst, at, b"hue=");
    let after_name = name.put_text(dst, after_key);
    let after_open = put(dst, after_name, b"(");
    let after_bracket = bracket.put_text(dst, after_open);
    put(dst, after_bracket, b")\n")
}

pub fn hue_len(withheld: bool, x: Hue) -> usize
    ensures { (result ≡ length (unless_withheld withheld (hue_word x))) × (result ≤ 18) }
{
    if withheld {
        return 8;
    }
    match x {
        Hue::Equal => 5,
        Hue::Towards(name, bracket) => 2 + word_len(name) + word_len(bracket),
    }
}

#[tactic(auto, unfolding(text::specs::Put::line))]
pub fn put_hue(dst: &mut [u8], at: usize, withheld: bool, x: Hue) -> usize
    requires { Room dst.old at (line (ascii "hue=") (unless_withheld withheld (hue_word x))) }
    ensures { Puts dst.old at (line (ascii "hue=") (unless_withheld withheld (hue_word x))) result dst.new }
{
    if withheld {
        return put_line(dst, at, b"hue=", b"withheld");
    }
    match x {
        Hue::Equal => put_line(dst, at, b"hue=", b"equal"),
        Hue::Towards(name, bracket) => put_axes(dst, at, name, bracket),
    }
}
