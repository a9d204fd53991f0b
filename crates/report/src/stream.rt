ghost use Rattle.std.specs.Prelude.{◌≡◌, ◌≤◌, ◌<◌, length, take, IfOk, IfSome};
ghost use Rattle.std.specs.Io.KnownBytes.{Consumes, IsAtEnd};
ghost use Rattle.report.specs.Items.{needed};

use super::items::{ITEM_BYTES, wanted};
use std::io;
use std::io::Read;

// Reads until `bytes` is full or the input ends, and answers how many bytes came. A read may bring fewer bytes than
// there is room for, but brings at least one before the input's end. `read_exact` does not tell how many bytes came.
fn fill<R: Read>(input: &mut R, bytes: &mut [u8]) -> io::Result<usize>
    ensures bound { IfOk result (λ n. n ≤ length bytes.new) }
    ensures consumed { IfOk result (λ n. Consumes (R.remaining input.old) (R.remaining input.new) (take n bytes.new)) }
    ensures full { IfOk result (λ n. n < length bytes.new → IsAtEnd (R.remaining input.new)) }
{
    let mut filled = 0usize;
    while filled < bytes.len() {
        let got = input.read(&mut bytes[filled..])?;
        if got == 0 {
            break;
        }
        filled += got;
    }
    Ok(filled)
}

// Reads the bytes of one item to the front of `bytes`, as many as its head asks for and no more, and answers those that
// came: fewer only where the input ended.
pub fn next_item<'b, R: Read>(
    input: &mut R,
    bytes: &'b mut [u8; ITEM_BYTES],
) -> io::Result<&'b [u8]>
    ensures bound { IfOk result (λ item. length item.now ≤ 1504) }
    ensures consumed { IfOk result (λ item. Consumes (R.remaining input.old) (R.remaining input.new) item.now) }
    ensures whole { IfOk result (λ item. IfSome (R.remaining input.old) (λ b. item.now ≡ take (needed (take 4 b)) b)) }
{
    let head = wanted(&[]);
    let first = fill(input, &mut bytes[..head])?;
    if first < head {
        return Ok(&bytes[..first]);
    }
    let all = wanted(&bytes[..first]);
    let more = fill(input, &mut bytes[first..all])?;
    Ok(&bytes[..first + more])
}
