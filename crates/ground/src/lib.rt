// What every routine shares: why it refuses and the number that is given back for it, a choice by a test, a number at a place, the count of one record, and
// whether bytes are all zeros.

#![tactic(auto)]

ghost use Rattle.std.specs.Prelude.{◌≡◌, ◌≤◌, get_or};
ghost use Rattle.ground.specs.Choice.{pick};
ghost use Rattle.ground.specs.Records.{zeros};
ghost use Rattle.ground.specs.Refusals.{refusal_number};

// Why a routine refuses, each with the number that is given back for it.
#[derive(Clone, Copy, Debug, PartialEq, Eq)]
pub enum Refusal {
    // The module table's length.
    Table = 1,
    // A house or unit above 15, or numbers that make no message.
    Message = 2,
    // A module table that breaks a rule.
    Record = 3,
    // A message that tables do not carry.
    NotCarried = 4,
    // A half-cycle that is not 0 or 1.
    Half = 5,
    // A station, a receiver or a bench in a state that there is not.
    State = 6,
    // A draw that is not 8, 9 or 10.
    Draw = 7,
    // Loading a station that holds a message.
    Busy = 8,
    // A lent buffer without room.
    Short = 9,
    // Radio bytes: not four, a pair that is not complementary, none of the 544.
    RfLength = 12,
    Complement = 13,
    Code = 14,
    // Sent 1, heard 0.
    Fault = 15,
    // The shutter table's length.
    ShutterTable = 16,
    // A shutter table that breaks a rule.
    ShutterRecord = 17,
    // A command for shutters with an opening above 25.
    Opening = 18,
    // LynX-NET packets: a size that disagrees with the length byte, a check byte that is not the sum, another network than X-10's, a payload of no form.
    PacketLength = 19,
    Check = 20,
    Network = 21,
    Payload = 22,
}

// The count of one record: 0 where it is passed over, as one whose value stayed the same, else 1.
pub fn count_of(passed: bool) -> usize
    ensures { (result ≡ pick passed 0 1) × (result ≤ 1) }
{
    if passed { 0 } else { 1 }
}

// The first value where the test holds, else the second.
pub fn choose<T: Copy>(b: bool, x: T, y: T) -> T
    ensures { result ≡ pick b x y }
{
    if b { x } else { y }
}

// The number at place k of a list; there is 0 beyond its end.
pub fn number_at<const N: usize>(xs: [u8; N], k: u8) -> u8
    ensures { result ≡ get_or xs.entry k 0 }
{
    let i = k as usize;
    if i < N { xs[i] } else { 0 }
}

// Whether the bytes are all zeros. Every one is tested: with no early way out sixteen are tested at once.
fn each_zero(t: &[u8]) -> bool
    ensures { result ≡ zeros t.now }
{
    let mut none = true;
    for &x in t {
        none = none & (x == 0);
    }
    none
}

// The same, and where the first byte is not zero no other is read: so it is where the first of several records is present.
pub fn zeros(t: &[u8]) -> bool
    ensures { result ≡ zeros t.now }
{
    if t.len() == 0 {
        return true;
    }
    if t[0] != 0 {
        return false;
    }
    each_zero(t)
}

// The number that is given back for a refusal.
pub fn refusal_number(why: Refusal) -> u8
    ensures { result ≡ refusal_number why }
{
    why as u8
}
