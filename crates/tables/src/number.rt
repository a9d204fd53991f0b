// Whole numbers in bytes, the most significant first.
ghost use Rattle.std.specs.Prelude.{◌≡◌, ℕ, ◌/◌, ◌^◌, ◌<◌, ◌≤◌, length};
ghost use Rattle.tables.specs.Bytes.{word, spelt};

use kinds::plain::Plain;
use kinds::written::Written;

// The number of the bytes.
pub(crate) fn number_of(bytes: &[u8]) -> u128
    requires { length bytes.now ≤ 16 }
    ensures value { result ≡ word bytes.now }
    ensures fits { result < 256 ^ length bytes.now }
{
    let mut n = 0;
    for byte in bytes {
        n = n << 8 | *byte as u128;
    }
    n
}

// Writes the lowest bytes of a number, as many as the buffer has.
pub(crate) fn put_number(buffer: &mut [u8], n: u128)
    requires { length buffer.old ≤ 16 }
    ensures { buffer.new ≡ spelt (length buffer.old) n }
{
    let bytes = n.to_be_bytes();
    let front = bytes.len() - buffer.len();
    buffer.copy_from_slice(&bytes[front..]);
}

// The pattern of a kind that the bytes are.
pub(crate) fn pattern_of<W: Written>(bytes: &[u8]) -> W::Pattern
    requires { length bytes.now ≡ W.Written.SIZE / 8 }
    ensures { W.Written.number result ≡ word bytes.now }
{
    W::Pattern::narrow(number_of(bytes))
}

// Writes a pattern.
pub(crate) fn put_pattern<W: Written>(buffer: &mut [u8], pattern: W::Pattern)
    requires { length buffer.old ≡ W.Written.SIZE / 8 }
    ensures { buffer.new ≡ spelt (W.Written.SIZE / 8) (W.Written.number pattern) }
{
    put_number(buffer, pattern.wide());
}
