ghost use Rattle.std.specs.Prelude.{◌≡◌, ℕ, List, ◌≤◌, length, take, IfOk, IfSome};
ghost use Rattle.std.specs.Iterator.{at_most};
ghost use Rattle.report.specs.Items.{announced, front, behind, left, needed, meant, split_means};

// The head of an item: socket and length, two bytes each.
const HEAD: usize = 4;

// The longest packet that an item may hold.
const LONGEST: usize = 1500;

// The most bytes that an item takes.
pub const ITEM_BYTES: usize = 1504;

// The most items of one input.
pub const MOST_ITEMS: usize = 65536;

// A packet, and the socket that it came in by.
#[derive(Clone, Copy, PartialEq, Eq, Debug)]
pub struct Item<'i> {
    pub socket: u16,
    pub packet: &'i [u8],
}

// Why an input that has not ended holds no item.
#[derive(Clone, Copy, PartialEq, Eq, Debug)]
pub enum ItemFault {
    // the packet is announced as longer than 1,500 bytes
    Long,
    // the input ends before the item's length says
    Short,
}

// The length that an item's head gives for its packet.
fn announced(head: &[u8]) -> usize
    requires { 4 ≤ length head.now }
    ensures { result ≡ announced head.now }
{
    usize::from(u16::from_be_bytes([head[2], head[3]]))
}

// The item at the front of `input`, and what stands behind it; none where the input ends.
pub fn split(input: &[u8]) -> Result<Option<(Item<'_>, &[u8])>, ItemFault>
    ensures item { split_means result ≡ front input.now }
    ensures rest { IfOk result (λ first. IfSome first (λ p. p.1.now ≡ behind input.now)) }
{
    if input.is_empty() {
        return Ok(None);
    }
    let (head, body) = input.split_at_checked(HEAD).ok_or(ItemFault::Short)?;
    let length = announced(head);
    if length > LONGEST {
        return Err(ItemFault::Long);
    }
    if body.len() < length {
        return Err(ItemFault::Short);
    }
    let socket = u16::from_be_bytes([head[0], head[1]]);
    let (packet, rest) = body.split_at(length);
    Ok(Some((Item { socket, packet }, rest)))
}

// The items of an input, one after another; a fault is the last.
#[derive(Drop)]
pub struct Items<'i> {
    rest: &'i [u8],
}

impl<'i> Items<'i> {
    // The items of `input`.
    pub fn new(input: &'i [u8]) -> Items<'i>
        ensures { result.rest.now ≡ input.now }
    {
        Items { rest: input }
    }
}

impl<'i> Iterator for Items<'i> {
    type Item = Result<Item<'i>, ItemFault>;

    ghost next_gives = { λ s r t. (meant r ≡ front s.rest.now) × (t.rest.now ≡ left s.rest.now) };

    ghost remaining = { λ s. at_most (length s.rest.now) };

    fn next(&mut self) -> Option<Result<Item<'i>, ItemFault>> {
        match split(self.rest) {
            Ok(None) => None,
            Ok(Some((item, rest))) => {
                self.rest = rest;
                Some(Ok(item))
            }
            Err(fault) => {
                self.rest = &[];
                Some(Err(fault))
            }
        }
    }
}

// How many bytes an item takes that begins with `head`; where that is cut short or announces too much, the head's.
fn item_size(head: &[u8]) -> usize
    ensures { result ≡ needed head.now }
{
    if head.len() < HEAD {
        return HEAD;
    }
    let length = announced(head);
    if length > LONGEST {
        HEAD
    } else {
        HEAD + length
    }
}

// How many bytes of an input tell its first item; `head` is the input's first four bytes, or all of a shorter one.
pub fn wanted(head: &[u8]) -> usize
    ensures value { result ≡ needed head.now }
    ensures enough { (b : List ℕ) → take 4 b ≡ head.now → front (take result b) ≡ front b }
{
    item_size(head)
}
