// Numbers read out of decimal text: one, and a list of them, one a line.
#![tactic(auto)]

ghost use Rattle.std.specs.Prelude.{◌≡◌, ◌==◌, [], ◌∷◌, length, position};
ghost use Rattle.std.proofs.lemmas.List.Edits.{sets};
ghost use Rattle.parsing.specs.Numbers.{says, number_of, number_in, front, sound, leading, lines_in, counted, stored};

// The number that one more byte makes of a value.
pub fn appended(value: u64, byte: u8) -> Option<u64>
    ensures { result ≡ says value (byte ∷ []) }
{
    if !byte.is_ascii_digit() {
        return None;
    }
    let tens = value.checked_mul(10)?;
    tens.checked_add(u64::from(byte - b'0'))
}

// The number that a text is: one or more decimal digits, worth at most 2 ^ 64 - 1.
pub fn number_of(text: &[u8]) -> Option<u64>
    ensures { result ≡ number_of text.now }
{
    if text.is_empty() {
        return None;
    }
    let mut value = 0;
    for byte in text {
        value = appended(value, *byte)?;
    }
    Some(value)
}

// The number that a text is, where it has at most twenty digits.
pub fn number_in(text: &[u8]) -> Option<u64>
    ensures { result ≡ number_in text.now }
{
    if 20 < text.len() {
        return None;
    }
    number_of(text)
}

// Where the text's first line feed stands.
fn first_feed(text: &[u8]) -> Option<usize>
    ensures { result ≡ position (λ b. b == 10) text.now }
{
    text.iter().position(|byte| *byte == b'\n')
}

// How many bytes the text's first line has: those before its line feed, or all where there is none.
fn line_length(text: &[u8]) -> usize
    ensures { result ≡ length (front text.now) }
{
    first_feed(text).unwrap_or(text.len())
}

// Whether each of the first `most` lines is a number.
fn sound(text: &[u8], most: usize) -> bool
    ensures { result ≡ sound most text.now }
{
    let mut at = 0;
    for _ in 0..most {
        if text.len() <= at {
            return true;
        }
        let end = at + line_length(&text[at..]);
        if number_in(&text[at..end]).is_none() {
            return false;
        }
        at = end + 1;
    }
    true
}

// Writes the numbers of the lines to the list, up to a line that is none; how many they are.
fn fill(text: &[u8], list: &mut [u64]) -> usize
    ensures { (result ≡ length (leading (length list.old) text.now)) × (list.new ≡ sets list.old 0 (leading (length list.old) text.now)) }
{
    let mut at = 0;
    for (n, place) in list.iter_mut().enumerate() {
        if text.len() <= at {
            return n;
        }
        let end = at + line_length(&text[at..]);
        let Some(x) = number_in(&text[at..end]) else {
            return n;
        };
        *place = x;
        at = end + 1;
    }
    list.len()
}

// Reads numbers, one a line, to the front of the list, until the text ends or the list is full. A text with another line leaves the list as it was.
pub fn list(text: &[u8], list: &mut [u64]) -> Option<usize>
    ensures { (result ≡ counted (lines_in (length list.old) text.now)) × (list.new ≡ stored (lines_in (length list.old) text.now) list.old) }
{
    if !sound(text, list.len()) {
        return None;
    }
    Some(fill(text, list))
}
