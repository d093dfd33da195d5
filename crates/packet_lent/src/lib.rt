// What a LynX-NET packet carries, read into lent bytes.

#![tactic(auto)]

ghost use Rattle.std.specs.Prelude.{◌≡◌, [], ◌∷◌, ◌+◌, ◌*◌, ◌≤◌, ◌<◌, length, Ok, Err};
ghost use Rattle.std.proofs.lemmas.List.Edits.{sets};
ghost use Rattle.ground.specs.Records.{front};
ghost use Rattle.ground.specs.Refusals.{judged, count_report, reports, refuses};
ghost use Rattle.wire.specs.Messages.{listed as five-listed};
ghost use Rattle.lynx_net.specs.Lists.{ending_list, unit_count, addresses_of, listed};
ghost use Rattle.lynx_net.specs.declared.payload.Ending.TheVariants as ending;
ghost use Rattle.lynx_net.specs.Packets.{front_causes};
ghost use Rattle.packet_lent.specs.PacketBytes.{all_bytes, packet_bytes};
ghost use Rattle.packet_lent.specs.PacketBytes.{carried_by, carried_causes, carried_answer, carried_after};

use ground::Refusal;
use lynx_net::Packet;
use lynx_net::payload::{Ending, Messages, message_count, unit_count};
use message::Function;
use message::codes::function_code;
use wire::{Five, five_of};

// Puts five numbers from `at` on. It has a twin in receiver: a routine that both call would be open, and have to test again whether there is room.
fn put_five(out: &mut [u8], at: usize, five: Five)
    requires { at + 5 ≤ length out.old }
    ensures { out.new ≡ sets out.old at (five-listed five) }
{
    out[at] = five.kind;
    out[at + 1] = five.house;
    out[at + 2] = five.third;
    out[at + 3] = five.data;
    out[at + 4] = five.command;
}

// Puts the address of each unit, one after the other. The addresses have a loop of their own: with one loop for all messages each is chosen anew.
fn put_addresses(ms: Messages, n: usize, out: &mut [u8])
    requires { (n ≡ unit_count ms) × (3 + 5 * n ≤ length out.old) }
    ensures { out.new ≡ sets out.old 3 (all_bytes (addresses_of ms)) }
{
    for i in 0..n {
        put_five(
            out,
            3 + 5 * i,
            Five {
                kind: 1,
                house: ms.house,
                third: ((ms.units >> (4 * i)) % 16) as u8,
                data: 0,
                command: 0,
            },
        );
    }
}

// Puts the function for each house.
fn put_houses(function: Function, out: &mut [u8], at: usize)
    requires { (at ≤ 83) × (at + 80 ≤ length out.old) }
    ensures { out.new ≡ sets out.old at (all_bytes (ending_list (ending.EveryHouse function))) }
{
    let code = function_code(function);
    for house in 0..16 {
        put_five(
            out,
            at + 5 * house as usize,
            Five {
                kind: 2,
                house,
                third: code,
                data: 0,
                command: 0,
            },
        );
    }
}

// Puts what ends the messages.
fn put_ending(end: Ending, out: &mut [u8], at: usize)
    requires { (at ≤ 83) × (at + 5 * length (ending_list end) ≤ length out.old) }
    ensures { out.new ≡ sets out.old at (all_bytes (ending_list end)) }
{
    match end {
        Ending::Nothing => {}
        Ending::Message(m) => put_five(out, at, five_of(m)),
        Ending::EveryHouse(function) => put_houses(function, out, at),
    }
}

// Puts node, sequence and the payload's length at the buffer's front.
fn put_head(p: Packet, out: &mut [u8])
    requires { 3 ≤ length out.old }
    ensures { out.new ≡ sets out.old 0 (p.node ∷ p.sequence ∷ p.length ∷ []) }
{
    out[0] = p.node;
    out[1] = p.sequence;
    out[2] = p.length;
}

// Writes what a packet carries to the buffer's front, if it has room.
fn put_packet(p: Packet, out: &mut [u8]) -> Result<usize, Refusal>
    ensures value { result ≡ judged (front_causes (packet_bytes p) (length out.old)) (Ok (length (listed p.messages))) Err }
    ensures out_after { out.new
        ≡ judged (front_causes (packet_bytes p) (length out.old)) (front (packet_bytes p) out.old) (λ why. out.old) }
{
    let ms = p.messages;
    let n = message_count(ms);
    if out.len() < 3 + 5 * n {
        return Err(Refusal::Short);
    }
    put_head(p, out);
    let units = unit_count(ms);
    put_addresses(ms, units, out);
    put_ending(ms.ending, out, 3 + 5 * units);
    Ok(n)
}

// Reads a packet: node, sequence, the payload's length and five bytes for each message are put to the front of a lent buffer; bytes beyond them stay.
// Answers how many messages. Refused, in this order: 19, 20, 21, 22, 9.
pub fn read(packet: &[u8], out: &mut [u8]) -> Result<usize, Refusal>
    ensures answer { result ≡ carried_answer packet.now (length out.old) }
    ensures report { count_report result ≡ judged (carried_causes packet.now (length out.old))
        (reports (length (carried_by packet.now) ∷ [])) refuses }
    ensures buffer { out.new ≡ carried_after packet.now out.old }
{
    let p = lynx_net::read(packet)?;
    put_packet(p, out)
}
