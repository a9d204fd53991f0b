// What holds of every header, in the words of RFC 791. The functions do nothing: their contracts are the facts.
ghost use Rattle.packets.specs.Facts.{AddressFields, ComplementAccepted, ChangedBitRefused};

// An accepted packet's addresses are its bytes 12 to 15 and 16 to 19.
pub fn address_fields()
    ensures { AddressFields }
{}

// A header whose checksum field is the complement of the rest is accepted.
pub fn complement_accepted()
    ensures { ComplementAccepted }
{}

// One changed bit in an accepted header, outside its header length, is refused.
pub fn changed_bit_refused()
    ensures { ChangedBitRefused }
{}
