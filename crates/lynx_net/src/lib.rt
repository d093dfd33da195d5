// LynX-NET packets: network, node, sequence, length, data, check byte.

#![tactic(auto)]

ghost use Rattle.std.specs.Prelude.{◌≡◌, ◌+◌, ◌%◌, ◌^◌, ◌≤◌, [], ◌∷◌, length, slice_index};
ghost use Rattle.ground.specs.Records.{sum_below};
ghost use Rattle.std.proofs.lemmas.List.Edits.{sets};
ghost use Rattle.ground.specs.Refusals.{judged, reports, refuses, count_report};
ghost use Rattle.lynx_net.specs.Packets.{NETWORK, check_of, packet_of, read_causes, read_answer, read_report, parts_of};
ghost use Rattle.lynx_net.specs.Packets.{front_answer, front_after, write_causes, write_answer, buffer_after};

use crate::payload::{Messages, messages_in, payload_ok};
use ground::Refusal;

pub mod payload;

// The network that carries X-10.
const NETWORK: u8 = 0x10;

// What a packet carries. Its payload is so many of the packet's bytes from the fifth on.
#[derive(Clone, Copy)]
pub struct Packet {
    pub node: u8,
    pub sequence: u8,
    pub length: u8,
    pub messages: Messages,
}

// The check byte of the bytes before it: their sum, each carry out of eight bits dropped.
pub fn check_of(bytes: &[u8]) -> u8
    ensures { result ≡ check_of bytes.now }
{
    let mut sum: u8 = 0;
    for &byte in bytes {
        sum = sum.wrapping_add(byte);
    }
    sum
}

// Reads a packet: its node, its sequence, its payload by the length, and the payload's messages.
// Refused, in this order: 19, 20, 21, 22.
pub fn read(packet: &[u8]) -> Result<Packet, Refusal>
    ensures answer { result ≡ read_answer packet.now }
    ensures report { read_report packet.now result ≡ judged (read_causes packet.now) (reports (parts_of packet.now ∷ [])) refuses }
{
    let n = packet.len();
    if n < 5 {
        return Err(Refusal::PacketLength);
    }
    let length = packet[3];
    if n - 5 != length as usize {
        return Err(Refusal::PacketLength);
    }
    let last = n - 1;
    if packet[last] != check_of(&packet[..last]) {
        return Err(Refusal::Check);
    }
    if packet[0] != NETWORK {
        return Err(Refusal::Network);
    }
    let messages = messages_in(&packet[4..last])?;
    Ok(Packet {
        node: packet[1],
        sequence: packet[2],
        length,
        messages,
    })
}

// Puts the four bytes before a payload of so many bytes at the buffer's front.
fn put_head(buf: &mut [u8], node: u8, sequence: u8, count: u8)
    requires { 4 ≤ length buf.old }
    ensures { buf.new ≡ sets buf.old 0 (NETWORK ∷ node ∷ sequence ∷ count ∷ []) }
{
    buf[0] = NETWORK;
    buf[1] = node;
    buf[2] = sequence;
    buf[3] = count;
}

// Copies the payload to its place in a packet, from the fifth byte on, and adds its bytes to a sum, each carry out of eight bits dropped: one loop
// for both.
fn put_payload(payload: &[u8], buf: &mut [u8], head: u8) -> u8
    requires { 4 + length payload.now ≤ length buf.old }
    ensures value { result ≡ (head + sum_below (length payload.now) (λ k. slice_index payload.now k)) % 2 ^ 8 }
    ensures buf_after { buf.new ≡ sets buf.old 4 payload.now }
{
    let mut sum = head;
    for (i, &byte) in payload.iter().enumerate() {
        buf[4 + i] = byte;
        sum = sum.wrapping_add(byte);
    }
    sum
}

// The sum of the four bytes before a payload.
fn head_sum(node: u8, sequence: u8, count: u8) -> u8
    ensures { result ≡ (NETWORK + node + sequence + count) % 2 ^ 8 }
{
    NETWORK
        .wrapping_add(node)
        .wrapping_add(sequence)
        .wrapping_add(count)
}

// Writes the packet of a payload, if the buffer has room: what is left of the writer once the payload is one.
fn write_around(node: u8, sequence: u8, payload: &[u8], buf: &mut [u8]) -> Result<usize, Refusal>
    requires { length payload.now ≤ 19 }
    ensures value { result ≡ front_answer (packet_of node sequence payload.now) (length buf.old) }
    ensures buf_after { buf.new ≡ front_after (packet_of node sequence payload.now) buf.old }
{
    let n = payload.len();
    if buf.len() < n + 5 {
        return Err(Refusal::Short);
    }
    let count = n as u8;
    put_head(buf, node, sequence, count);
    let check = put_payload(payload, buf, head_sum(node, sequence, count));
    buf[n + 4] = check;
    Ok(n + 5)
}

// Writes the packet of a node, a sequence and a payload to the front of a lent buffer, and answers how many bytes; bytes beyond it stay.
// Refused, in this order: 22, 9.
pub fn write(node: u8, sequence: u8, payload: &[u8], buf: &mut [u8]) -> Result<usize, Refusal>
    ensures answer { result ≡ write_answer node sequence payload.now (length buf.old) }
    ensures report { count_report result ≡ judged (write_causes node sequence payload.now (length buf.old))
        (reports (length (packet_of node sequence payload.now) ∷ [])) refuses }
    ensures buffer { buf.new ≡ buffer_after node sequence payload.now buf.old }
{
    if !payload_ok(payload) {
        return Err(Refusal::Payload);
    }
    write_around(node, sequence, payload, buf)
}
