// A text put into a lent slice. Whoever calls has tested the room, and goes on at the index that comes back.
ghost use Rattle.text.specs.Put.{Room, Puts};

// Puts src into dst from index at, and answers the index after it.
// By a loop, of which the compiler makes a few stores where src is known; a `copy_from_slice` is a test for overlap and
// a call.
pub fn put(dst: &mut [u8], at: usize, src: &[u8]) -> usize
    requires { Room dst.old at src.now }
    ensures { Puts dst.old at src.now result dst.new }
{
    for j in 0..src.len() {
        dst[at + j] = src[j];
    }
    at + src.len()
}
