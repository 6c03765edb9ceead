// Slices: a part at any place, and remainders.

// The n bytes from a place on, or none where they are not all there.
pub(crate) fn part(s: &[u8], start: usize, n: usize) -> &[u8] {
    s.get(start..).and_then(|rest| rest.get(..n)).unwrap_or(&[])
}

// The largest prime below 2^32.
const PRIME: u64 = 4294967291;

// Bytes as one number, most significant first, modulo the prime: one byte that is not as it should be makes
// another remainder.
pub(crate) fn remainder(s: &[u8]) -> u64 {
    s.iter().fold(0, |r, b| r % PRIME * 256 + u64::from(*b)) % PRIME
}
