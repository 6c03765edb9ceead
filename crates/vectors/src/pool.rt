// The bytes that the calls take their slices of: 1,024 of text, where names are cut out; then 1,024 below
// 4, which are register lists wherever one begins; then 66,000 of any kind.
use crate::random::Random;

pub(crate) type Pool = [u8; 68048];

pub(crate) const LISTS: usize = 1024;

pub(crate) const ANY: usize = 2048;

// The text, again and again: document 01's five names, of which three are not UTF-8; 33 letters; a zero
// byte; a register list of an entry and two bytes more; then UTF-8 of one to four bytes.
fn text(i: usize) -> u8 {
    let text =
        b"\xe2\x82\xac\xf4\x8f\xbf\xbf\xc0\x80\xed\xa0\x80\xf4\x90\x80\x80a name of thirty-three bytes.....a\0b\x07\x00\x02x0\x08\x00main(\xc2\xb5, \xc3\xa9)_\xe2\x89\xa4_\xe0\xa0\x80\xed\x9f\xbf\xf0\x90\x80\x80 operator==\xf0\x9f\x98\x80_start_of_a_longer_name_etc";
    text[i % 128]
}

pub(crate) fn fill(pool: &mut Pool, random: &mut Random) {
    for (i, byte) in pool.iter_mut().enumerate() {
        *byte = if i < LISTS {
            text(i)
        } else if i < ANY {
            random.byte(4)
        } else {
            random.byte(256)
        };
    }
}
