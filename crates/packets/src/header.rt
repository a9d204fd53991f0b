ghost use Rattle.std.specs.Prelude.{◌≡◌, ◌+◌, ◌/◌, ◌%◌, ◌≤◌, ◌||◌, length, ◌==◌, nat_lt};
ghost use Rattle.packets.specs.Datagram.{answered, datagram, ports_of, total_length};
ghost use Rattle.packets.specs.Header.{number, ones_complement, part, word_sum};

use super::checksum::ones_complement_sum;
use super::fault::PacketFault;
use super::packet::{Packet, Ports};
use kinds::ipv4::Ipv4;

// The fewest bytes of a header.
const SHORTEST: usize = 20;

// The fewest words of a header, four bytes each.
const FEWEST_WORDS: usize = 5;

// TCP and UDP: their payload begins with two ports.
const TCP: u8 = 6;

// See TCP.
const UDP: u8 = 17;

// The ports at the front of a payload, where the protocol has any and the payload holds them.
fn ports(protocol: u8, payload: &[u8]) -> Option<Ports>
    ensures { result ≡ ports_of protocol payload.now }
{
    if !matches!(protocol, TCP | UDP) {
        return None;
    }
    let (source, rest) = payload.split_first_chunk()?;
    let (destination, _) = rest.split_first_chunk()?;
    Some(Ports {
        source: u16::from_be_bytes(*source),
        destination: u16::from_be_bytes(*destination),
    })
}

// Whether there are fewer bytes than the shortest header has.
fn is_short(bytes: &[u8]) -> bool
    ensures { result ≡ nat_lt (length bytes.now) 20 }
{
    bytes.len() < SHORTEST
}

// Whether the upper half of the first byte, the version, is 4.
fn is_version_four(first: u8) -> bool
    ensures { result ≡ (first / 16 == 4) }
{
    first >> 4 == 4
}

// The lower half of the first byte: how many words of four bytes the header has.
fn header_words(first: u8) -> usize
    ensures { result ≡ first % 16 }
{
    usize::from(first & 15)
}

// Whether a header is shorter than the fields that every header has.
fn is_header_short(words: usize) -> bool
    ensures { result ≡ nat_lt words 5 }
{
    words < FEWEST_WORDS
}

// The length of header and payload.
fn total_length(bytes: &[u8]) -> usize
    requires { 20 ≤ length bytes.now }
    ensures { result ≡ total_length bytes.now }
{
    usize::from(u16::from_be_bytes([bytes[2], bytes[3]]))
}

// Whether a total length does not lie between the header's length and that of all bytes.
fn is_outside(total: usize, header: usize, all: usize) -> bool
    ensures { result ≡ (nat_lt total header || nat_lt all total) }
{
    total < header || all < total
}

// Whether the ones' complement sum of a header is all ones.
fn adds_up(header: &[u8]) -> bool
    ensures { result ≡ (ones_complement (word_sum header.now (length header.now / 2)) == 65535) }
{
    ones_complement_sum(header) == 0xFFFF
}

// The address whose first byte stands at `place`.
fn address(bytes: &[u8], place: usize) -> Ipv4
    requires { place + 4 ≤ length bytes.now }
    ensures { result.number ≡ number (part place (place + 4) bytes.now) }
{
    Ipv4::new(u32::from_be_bytes([
        bytes[place],
        bytes[place + 1],
        bytes[place + 2],
        bytes[place + 3],
    ]))
}

// Reads a packet from the front of `bytes`, or says the first thing that is wrong with it.
pub fn read(bytes: &[u8]) -> Result<Packet<'_>, PacketFault>
    ensures { answered result ≡ datagram bytes.now }
{
    if is_short(bytes) {
        return Err(PacketFault::Short);
    }
    if !is_version_four(bytes[0]) {
        return Err(PacketFault::Version);
    }
    let words = header_words(bytes[0]);
    if is_header_short(words) {
        return Err(PacketFault::HeaderLength);
    }
    let header = words * 4;
    let total = total_length(bytes);
    if is_outside(total, header, bytes.len()) {
        return Err(PacketFault::TotalLength);
    }
    if !adds_up(&bytes[..header]) {
        return Err(PacketFault::Checksum);
    }
    let protocol = bytes[9];
    let payload = &bytes[header..total];
    Ok(Packet {
        source: address(bytes, 12),
        destination: address(bytes, 16),
        protocol,
        payload,
        ports: ports(protocol, payload),
    })
}
