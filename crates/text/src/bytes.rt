// Bytes that are looked for in a text, and the text's parts: each in the words of the ticket's grammar, over the
// library's call.
ghost use Rattle.std.specs.Prelude.{◌≡◌};
ghost use Rattle.text.specs.Bytes.{starts_with, same_bytes, before, after};
ghost use Rattle.text.specs.Bytes.Laws.{Found};

// Where b first stands in s, or s's length: no Option, since what stands before it is then all of s.
pub fn find(s: &[u8], b: u8) -> usize
    ensures { Found b s.now result }
{
    s.iter().position(|&x| x == b).unwrap_or(s.len())
}

// Whether s starts with key.
pub fn starts(s: &[u8], key: &[u8]) -> bool
    ensures { result ≡ starts_with key.now s.now }
{
    s.starts_with(key)
}

pub fn same(s: &[u8], t: &[u8]) -> bool
    ensures { result ≡ same_bytes s.now t.now }
{
    s == t
}

// What stands before the first b, or all of s.
pub fn part_before(s: &[u8], b: u8) -> &[u8]
    ensures { result.now ≡ before b s.now }
{
    let i = find(s, b);
    &s[..i]
}

// What stands after the first b, or nothing.
pub fn part_after(s: &[u8], b: u8) -> &[u8]
    ensures { result.now ≡ after b s.now }
{
    let i = find(s, b);
    if i < s.len() { &s[i + 1..] } else { &s[..0] }
}
