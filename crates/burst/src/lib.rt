// Bursts: the half-cycles that carry a message on the mains, one byte of 0 or 1 each.

#![tactic(auto)]

ghost use Rattle.std.specs.Prelude.{◌≡◌, ◌∷◌, [], ◌++◌, true, ◌+◌, ◌*◌, ◌-◌, ◌≤◌, length, take, drop, replicate, Ok, Err};
ghost use Rattle.std.proofs.lemmas.List.Edits.{sets};
ghost use Rattle.std.proofs.Math.Seq.{paste};
ghost use Rattle.ground.specs.Refusals.{judged, count_report, reports, refuses};
ghost use Rattle.message.specs.Words.{word_in};
ghost use Rattle.message.specs.declared.Message.{Message};
ghost use Rattle.burst.specs.Frames.{bits_of, pairs_of, burst_of, burst_length};
ghost use Rattle.burst.specs.Writer.{frame_bits, short_causes, written, burst_causes, burst_answer, buffer_after};

use ground::Refusal;
use message::Message;
use message::word::{Word, word_of};

// Puts the n lowest bits of a word into the array from `at` on, highest first, each followed by its complement.
fn put_pairs(a: [u8; 124], at: usize, word: u32, n: u32) -> [u8; 124]
    requires { (n ≤ 32) × (at + 2 * n ≤ 124) }
    ensures { result ≡ sets a at (pairs_of (bits_of n word)) }
{
    let mut out = a;
    let mut next = at;
    for left in (0..n).rev() {
        let bit = ((word >> left) % 2) as u8;
        out[next] = bit;
        out[next + 1] = 1 - bit;
        next += 2;
    }
    out
}

// How many bits: 9 or 29, told apart here so that the loop and the copies have one of two lengths.
fn bit_count(w: Word) -> u32
    requires { frame_bits w.count ≡ true }
    ensures { result ≡ w.count }
{
    if w.count == 9 { 9 } else { 29 }
}

// The start and the pairs of a frame at the front of an array that is otherwise 0.
fn first_frame(w: Word) -> [u8; 124]
    requires { (w.count ≤ 29) × (frame_bits w.count ≡ true) }
    ensures { result ≡ sets (1 ∷ 1 ∷ 1 ∷ replicate 121 0) 4 (pairs_of (bits_of w.count w.bits)) }
{
    let mut a = [0; 124];
    a[0] = 1;
    a[1] = 1;
    a[2] = 1;
    put_pairs(a, 4, w.bits, bit_count(w))
}

// How many half-cycles a frame of so many bits has: the start and a pair for each bit.
fn frame_length(w: Word) -> usize
    requires { (w.count ≤ 29) × (frame_bits w.count ≡ true) }
    ensures { result ≡ 4 + (w.count + w.count) }
{
    let bits = bit_count(w) as usize;
    4 + (bits + bits)
}

// The burst whole, at the front of an array that is otherwise 0: the first frame, and from its end on once more, with no gap.
fn whole_burst(w: Word) -> [u8; 124]
    requires { (w.count ≤ 29) × (frame_bits w.count ≡ true) }
    ensures { (m : Message) → w ≡ word_in m → result ≡ burst_of m ++ replicate (124 - burst_length m) 0 }
{
    let mut a = first_frame(w);
    let n = frame_length(w);
    a.copy_within(..n, n);
    a
}

// Writes the burst of these bits to the buffer's front, if it has room: what is left of the writer once a message has its bits.
fn write_word(w: Word, buf: &mut [u8]) -> Result<usize, Refusal>
    requires { (w.count ≤ 29) × (frame_bits w.count ≡ true) }
    ensures value { (m : Message) → w ≡ word_in m → result ≡ judged (short_causes m (length buf.old)) (Ok (burst_length m)) Err }
    ensures buf_after { (m : Message) → w ≡ word_in m → buf.new
        ≡ judged (short_causes m (length buf.old)) (written m buf.old) (λ why. buf.old) }
{
    let f = frame_length(w);
    let n = f + f;
    if buf.len() < n {
        return Err(Refusal::Short);
    }
    let burst = whole_burst(w);
    buf[..n].copy_from_slice(&burst[..n]);
    Ok(n)
}

// Writes a message's burst to the front of a lent buffer, one byte of 0 or 1 for each half-cycle, and answers how many; bytes beyond
// it stay. Refused, it changes nothing.
pub fn write_burst(m: Message, buf: &mut [u8]) -> Result<usize, Refusal>
    ensures answer { result ≡ burst_answer m (length buf.old) }
    ensures report { count_report result ≡ judged (burst_causes m (length buf.old)) (reports (burst_length m ∷ [])) refuses }
    ensures buffer { buf.new ≡ buffer_after m buf.old }
{
    // A `match` and no `?`: a must-fail edit can then change the answer alone.
    match word_of(m) {
        Ok(w) => write_word(w, buf),
        Err(why) => Err(why),
    }
}
