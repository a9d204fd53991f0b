ghost use Rattle.std.specs.Prelude.{◌≡◌};
ghost use Rattle.packets.specs.Refusals.{number_of};

// Why bytes are no packet, in the order in which the checks run.
#[derive(Clone, Copy, PartialEq, Eq, Debug)]
pub enum PacketFault {
    // fewer bytes than the shortest header
    Short = 10,
    // the version is not 4
    Version = 11,
    // the header is shorter than five words
    HeaderLength = 12,
    // the total length is below the header's or above the bytes there are
    TotalLength = 13,
    // the header's checksum is wrong
    Checksum = 14,
}

impl PacketFault {
    // The number by which a refusal is told.
    pub fn number(self) -> u8
        ensures { result ≡ number_of self }
    {
        self as u8
    }
}
