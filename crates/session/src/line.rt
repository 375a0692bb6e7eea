// The words of a script's line, with one blank between them.

// The word after so many blanks: the number of its digits, or its last letter.
// 0 where there is none, and no Option: a script leaves out words that do not matter, as the body of a refused insert.
pub fn word(line: &[u8], blanks: usize) -> u32 {
    let word = line.split(|c| *c == b' ').nth(blanks).unwrap_or(b"");
    word.iter().fold(0, |x, c| with(x, *c))
}

// The number with one more digit, or another letter in its place.
fn with(x: u32, c: u8) -> u32 {
    if c.is_ascii_digit() {
        x.wrapping_mul(10).wrapping_add(u32::from(c - b'0'))
    } else {
        u32::from(c)
    }
}

// The lowest byte of that word's number.
pub fn byte(line: &[u8], blanks: usize) -> u8 {
    (word(line, blanks) % 256) as u8
}

// How many bytes that word says.
pub fn length(line: &[u8], blanks: usize) -> usize {
    word(line, blanks) as usize
}
