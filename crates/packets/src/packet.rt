ghost use Rattle.std.specs.Prelude.{◌≡◌};

use kinds::ipv4::Ipv4;

// The port numbers of a TCP or UDP packet.
#[derive(Clone, Copy, PartialEq, Eq, Debug)]
pub struct Ports {
    pub source: u16,
    pub destination: u16,
}

// What an IPv4 packet says. The payload is a part of the bytes that were read.
#[derive(Clone, Copy, PartialEq, Eq, Debug)]
pub struct Packet<'p> {
    pub source: Ipv4,
    pub destination: Ipv4,
    pub protocol: u8,
    pub payload: &'p [u8],
    pub ports: Option<Ports>,
}

impl Packet<'_> {
    // The address that the packet comes from.
    pub fn source(&self) -> Ipv4
        ensures { result ≡ self.now.source }
    {
        self.source
    }

    // The address that the packet goes to.
    pub fn destination(&self) -> Ipv4
        ensures { result ≡ self.now.destination }
    {
        self.destination
    }
}
