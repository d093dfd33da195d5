// What the programs share that hold a printed listing against the code: places in its text, and the bytes of its file.

#![tactic(auto)]

ghost use Rattle.std.specs.Prelude.{◌≡◌, ◌≢◌, ℕ, ◌+◌, ◌≤◌, ◌<◌, min, length, take, slice_index, slice_range};
ghost use Rattle.std.specs.List.{All};
ghost use Rattle.std.specs.Io.KnownBytes.{Consumes};

use std::io::Read;

// How many bytes of a text come before the first such byte; all of them where there is none.
fn count_before(text: &[u8], byte: u8) -> usize
    ensures within { result ≤ length text.now }
    ensures none_before { All (λ b. b ≢ byte) (take result text.now) }
    ensures found { result < length text.now → slice_index text.now result ≡ byte }
{
    text.iter().position(|&b| b == byte).unwrap_or(text.len())
}

// The place of the first such byte of a text from a place on; the text's end where there is none, and where the place lies beyond it.
pub fn find(text: &[u8], from: usize, byte: u8) -> usize
    ensures within { (min from (length text.now) ≤ result) × (result ≤ length text.now) }
    ensures none_before { All (λ b. b ≢ byte) (slice_range text.now from result) }
    ensures found { result < length text.now → slice_index text.now result ≡ byte }
{
    if text.len() < from {
        return text.len();
    }
    from + count_before(&text[from..], byte)
}

// The place after a place, within a text: its end where there is none.
pub fn past(text: &[u8], at: usize) -> usize
    ensures { result ≡ min (at + 1) (length text.now) }
{
    if at < text.len() { at + 1 } else { text.len() }
}

// Reads to the end of a file, a read that fails or the end of the buffer, and answers how many bytes came. Of a reader that says what it still has these
// are what it had, in order, and none is lost between them and what it has left; a file says nothing of it. Where the reading ends is not promised.
pub fn read_front<R: Read>(from: &mut R, text: &mut [u8]) -> usize
    ensures within { (length text.new ≡ length text.old) × (result ≤ length text.new) }
    ensures bytes { Consumes (R.remaining from.old) (R.remaining from.new) (take result text.new) }
{
    let mut done = 0;
    // No counted loop: the place goes on by what a read gave.
    while done < text.len() {
        match from.read(&mut text[done..]) {
            Ok(0) => return done,
            Ok(n) => done += n,
            Err(_) => return done,
        }
    }
    done
}
