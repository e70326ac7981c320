// Answers: the status, a packet written from a status and data, a packet read, in both framings.
#![tactic(auto)]

ghost use Rattle.std.specs.Prelude.{◌≡◌, ltb};
ghost use Rattle.answers.specs.Packet.{most_data, status_of, number_data, packet_around, PacketAs, PacketIs};
ghost use Rattle.answers.specs.Reading.{framed, good_status, good_data, printable, inside_by, told_of, read_of};
ghost use Rattle.answers.specs.Room.{Roomy};
ghost use Rattle.answers.specs.Oem.{oem_sum, OemPacketIs, oem_framed, read_oem_of};
ghost use Rattle.answers.specs.AnswerClaims.{AnswerClaims};

use checksum::{ETX, STX};

// A number as data: its digits, zeros behind them, and how many digits.
// A buffer with its length: the digits are the call's own, and the library has no heap.
#[derive(Clone, Copy)]
pub struct Data {
    pub bytes: [u8; MOST_DIGITS],
    pub length: usize,
}

// A packet that was read: status, its idle bit and its code, and where the data lies.
#[derive(Clone, Copy)]
pub struct Packet {
    pub status: u8,
    pub idle: bool,
    pub code: u8,
    pub at: usize,
    pub length: usize,
}

// "Packet: `/`, `0`, status, data, 03, CR, LF."
// An OEM packet: 02, `0`, status, data, 03, the checksum of all these.
const SLASH: u8 = b'/';

pub const HOST_ADDRESS: u8 = b'0';

const CARRIAGE_RETURN: u8 = 13;

const LINE_FEED: u8 = 10;

// Where status and data stand, and how many bytes stand behind the data, and around it.
const STATUS_AT: usize = 2;

const DATA_AT: usize = 3;

const TAIL_BYTES: usize = 3;

const AROUND_DATA: usize = DATA_AT + TAIL_BYTES;

const OEM_TAIL_BYTES: usize = 2;

const AROUND_OEM: usize = DATA_AT + OEM_TAIL_BYTES;

// "data 0 to 256 bytes"
pub const MOST_DATA: usize = 256;

// The greatest number of 32 bits has ten digits.
const MOST_DIGITS: usize = 10;

// "Status: bit 6 set, bit 5 set when idle after the frame, low four bits the code."
const BIT_7: u8 = 128;

const BIT_6: u8 = 64;

const BIT_5: u8 = 32;

const BIT_4: u8 = 16;

// "data .. of 20 to 7E hex"
const LEAST_DATA: u8 = 0x20;

const GREATEST_DATA: u8 = 0x7E;

// The status for an idle or running unit and a code.
#[tactic(auto, unfolding(crate::specs::Packet::status_of))]
pub fn status(idle: bool, code: u8) -> u8
    ensures { result ≡ status_of idle code }
{
    let low = code % BIT_4;
    if idle {
        BIT_6 + BIT_5 + low
    } else {
        BIT_6 + low
    }
}

// Whether a packet may have this status: bit 6 is set, bits 7 and 4 are clear.
pub fn good_status(status: u8) -> bool
    ensures { result ≡ good_status status }
{
    status & (BIT_7 | BIT_6 | BIT_4) == BIT_6
}

// The length of the packet, which is written at the front of the buffer; None where it does not fit, and nothing is written.
pub fn write_packet(buffer: &mut [u8], status: u8, data: &[u8]) -> Option<usize>
    ensures { PacketIs buffer.old status «data».now result buffer.new }
{
    let tail = [ETX, CARRIAGE_RETURN, LINE_FEED];
    write_framed(buffer, SLASH, status, data, &tail)
}

// The same in the OEM framing.
pub fn write_oem_packet(buffer: &mut [u8], status: u8, data: &[u8]) -> Option<usize>
    ensures { OemPacketIs buffer.old status «data».now result buffer.new }
{
    let tail = [ETX, oem_sum(status, data)];
    write_framed(buffer, STX, status, data, &tail)
}

// The packet of either framing, by its first byte and its tail.
fn write_framed(buffer: &mut [u8], start: u8, status: u8, data: &[u8], tail: &[u8]) -> Option<usize>
    ensures { PacketAs (packet_around start tail.now) buffer.old status «data».now result buffer.new }
{
    let n = data.len();
    if too_long(n) {
        return None;
    }
    let end = DATA_AT + n;
    let past = end + tail.len();
    if buffer.len() < past {
        return None;
    }
    let head = [start, HOST_ADDRESS, status];
    parts::put_at(buffer, 0, &head);
    parts::put_at(buffer, DATA_AT, data);
    parts::put_at(buffer, end, tail);
    Some(past)
}

// The checksum of an OEM packet.
fn oem_sum(status: u8, data: &[u8]) -> u8
    ensures { result ≡ oem_sum status «data».now }
{
    let head = checksum::with_byte(checksum::with_byte(STX, HOST_ADDRESS), status);
    checksum::with_byte(checksum::with_bytes(head, data), ETX)
}

// A number in decimal without leading zeros, as data.
pub fn number_data(n: u32) -> Data
    ensures { result ≡ number_data n }
{
    let mut bytes = [0u8; MOST_DIGITS];
    let length = digits::write_number(&mut bytes, 0, n).unwrap_or(0);
    Data { bytes, length }
}

// Status, idle, code and place of the data of a slice that is exactly one packet.
pub fn read_packet(packet: &[u8]) -> Option<Packet>
    ensures { result ≡ read_of packet.now }
{
    tell(look_inside(packet, AROUND_DATA, framed(packet)))
}

// The same of a slice that is exactly one packet of the OEM framing.
pub fn read_oem_packet(packet: &[u8]) -> Option<Packet>
    ensures { result ≡ read_oem_of packet.now }
{
    tell(look_inside(packet, AROUND_OEM, oem_framed(packet)))
}

// What the host is told of the status and the number of data bytes within a packet.
fn tell(inside: Option<(u8, usize)>) -> Option<Packet>
    ensures { result ≡ told_of inside }
{
    // 01's form: a packet is taken apart by let .. else, with the refusal as the other branch.
    let Some((status, length)) = inside else {
        return None;
    };
    Some(Packet {
        status,
        idle: status / BIT_5 % 2 == 1,
        code: status % BIT_4,
        at: DATA_AT,
        length,
    })
}

// The status and the number of data bytes of a slice that is exactly one packet of a framing: with so many bytes around the data, and framed or not.
fn look_inside(packet: &[u8], around: usize, framed: bool) -> Option<(u8, usize)>
    requires { Roomy framed around packet.now }
    ensures { result ≡ inside_by framed around packet.now }
{
    if framed {
        let status = packet[STATUS_AT];
        let n = packet.len() - around;
        if good_status(status) && good_data(&packet[DATA_AT..DATA_AT + n]) {
            return Some((status, n));
        }
    }
    None
}

// Whether a slice begins and ends as a packet does, with room for the status between.
fn framed(packet: &[u8]) -> bool
    ensures { result ≡ framed packet.now }
{
    matches!(
        packet,
        [SLASH, HOST_ADDRESS, _, .., ETX, CARRIAGE_RETURN, LINE_FEED]
    )
}

// Whether a slice begins and ends as an OEM packet does, with the right checksum and room for the status between.
fn oem_framed(packet: &[u8]) -> bool
    ensures { result ≡ oem_framed packet.now }
{
    let [STX, HOST_ADDRESS, _, .., ETX, sum] = packet else {
        return false;
    };
    *sum == checksum::sum(&packet[..packet.len() - 1])
}

// Whether a packet may have these bytes as data: at most 256, of 20 to 7E hex.
fn good_data(bytes: &[u8]) -> bool
    ensures { result ≡ good_data bytes.now }
{
    if too_long(bytes.len()) {
        return false;
    }
    // A `for`: `all` reads an Option of a reference, which lies otherwise on a chip, and `chip/pointer-places` refuses it.
    for b in bytes {
        if !printable(*b) {
            return false;
        }
    }
    true
}

// Whether data may have this byte: 20 to 7E hex.
pub fn printable(b: u8) -> bool
    ensures { result ≡ printable b }
{
    LEAST_DATA <= b && b <= GREATEST_DATA
}

// Whether so many bytes are more than the data of a packet may have.
fn too_long(n: usize) -> bool
    ensures { result ≡ ltb most_data n }
{
    MOST_DATA < n
}

// What is claimed of status and packets together.
pub fn answer_claims()
    ensures { AnswerClaims }
{}
