// What a line's value says: a name, or a reading of three numbers.
ghost use Rattle.std.specs.Prelude.{◌≡◌, option_map, find};
ghost use Rattle.text.specs.Bytes.{same_bytes};
ghost use Rattle.ticket.specs.Ticket.{formula_named, white_named, space_named, reading_of};

use colour::placed::{Space, Values, Written};
use colour::white::White;
use sheet::formula::Formula;
use text::bytes::{part_after, part_before, same};
use text::number::signed;

// What the first row with the name s holds. By a table: a match on byte strings has a way out of its own at each byte,
// and each is to be proved.
fn named<T: Copy>(s: &[u8], rows: &[(&[u8], T)]) -> Option<T>
    ensures { result ≡ option_map (λ row. row.1) (find (λ row. same_bytes s.now row.0.now) rows.now) }
{
    rows.iter().find(|(name, _)| same(s, name)).map(|&(_, x)| x)
}

#[tactic(auto, unfolding(crate::specs::Ticket::named))]
pub(crate) fn formula_named(s: &[u8]) -> Option<Formula>
    ensures { result ≡ formula_named s.now }
{
    named(
        s,
        &[
            (b"CIELAB", Formula::CIELAB),
            (b"CIE94", Formula::CIE94),
            (b"CMC", Formula::CMC),
        ],
    )
}

#[tactic(auto, unfolding(crate::specs::Ticket::named))]
pub(crate) fn white_named(s: &[u8]) -> Option<White>
    ensures { result ≡ white_named s.now }
{
    named(
        s,
        &[
            (b"D65/10", White::D65Ten),
            (b"D65/2", White::D65Two),
            (b"C/10", White::CTen),
            (b"C/2", White::CTwo),
        ],
    )
}

#[tactic(auto, unfolding(crate::specs::Ticket::named))]
pub(crate) fn space_named(s: &[u8]) -> Option<Space>
    ensures { result ≡ space_named s.now }
{
    named(s, &[(b"XYZ", Space::Xyz), (b"LAB", Space::Lab)])
}

// Three numbers, one space between.
pub(crate) fn reading_of(s: &[u8], space: Space) -> Option<Written>
    ensures { result ≡ reading_of space s.now }
{
    let t = part_after(s, b' ');
    let x = signed(part_before(s, b' '))?;
    let y = signed(part_before(t, b' '))?;
    let z = signed(part_after(t, b' '))?;
    Some(Values::of(space, x, y, z))
}
