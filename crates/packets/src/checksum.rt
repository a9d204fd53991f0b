ghost use Rattle.std.specs.Prelude.{◌≡◌, ◌+◌, ◌/◌, length};
ghost use Rattle.packets.specs.Header.{word_sum, ones_complement};

// The sum of two 16-bit numbers with the carry added back.
fn add_with_carry(a: u16, b: u16) -> u16
    ensures { result ≡ ones_complement (a + b) }
{
    let (sum, carried) = a.overflowing_add(b);
    if carried { sum.wrapping_add(1) } else { sum }
}

// The ones' complement sum of byte pairs, most significant byte first; an odd last byte is left out.
#[tactic(auto, unfolding(crate::specs::Header::word_sum))]
pub fn ones_complement_sum(bytes: &[u8]) -> u16
    ensures { result ≡ ones_complement (word_sum bytes.now (length bytes.now / 2)) }
{
    let (pairs, _) = bytes.as_chunks::<2>();
    let mut sum = 0u16;
    for pair in pairs {
        sum = add_with_carry(sum, u16::from_be_bytes(*pair));
    }
    sum
}
