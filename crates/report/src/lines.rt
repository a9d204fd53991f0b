ghost use Rattle.std.specs.Prelude.{◌≡◌, [], ◌∷◌, ◌++◌, IfOk, OnOk, IfSome, Some, string_bytes};
ghost use Rattle.std.specs.Io.KnownBytes.{Appends};
ghost use Rattle.report.specs.declared.lines.LineFault.TheVariants.{Denied};
ghost use Rattle.report.specs.Items.{goes_on, meant};
ghost use Rattle.report.specs.Lines.{dotted, ports_text, text, said, said_of, said_of_fault, outcome, told_of, fault_of, lines};

use super::items::{ITEM_BYTES, Item, ItemFault, Items, MOST_ITEMS};
use super::stream::next_item;
use arrayvec::ArrayString;
use kinds::ipv4::Ipv4;
use packets::{Packet, PacketFault, Ports};
use std::alloc::{AllocError, Global};
use std::fmt::Write as _;
use std::io::{Read, Write};
use std::{fmt, io};

// Room for a line and its line feed, of which the longest has 82 bytes: an item's packet has at most 1,500 bytes, so the
// length of its payload has at most four digits.
const LINE_BYTES: usize = 128;

// Why an item tells of no packet.
#[derive(Clone, Copy, PartialEq, Eq, Debug)]
pub enum LineFault {
    Denied(PacketFault),
    TooLong,
    CutShort,
}

impl From<PacketFault> for LineFault {
    ghost from_gives = { λ e r. r ≡ Denied e };

    fn from(refused: PacketFault) -> LineFault {
        LineFault::Denied(refused)
    }
}

impl From<ItemFault> for LineFault {
    ghost from_gives = { λ e r. r ≡ fault_of e };

    fn from(fault: ItemFault) -> LineFault {
        match fault {
            ItemFault::Long => LineFault::TooLong,
            ItemFault::Short => LineFault::CutShort,
        }
    }
}

// What is told of one item: its packet, or why there is none.
#[derive(Clone, Copy, PartialEq, Eq, Debug)]
pub struct Line<'p>(pub Result<Packet<'p>, LineFault>);

// An address in dotted decimal.
#[derive(Clone, Copy)]
struct Dotted(Ipv4);

impl fmt::Display for Dotted {
    ghost output = { λ a. Some (dotted a.0.number) };

    fn fmt<W: fmt::Write>(&self, f: &mut fmt::Formatter<W>) -> fmt::Result {
        let [first, second, third, fourth] = self.0.to_bits().to_be_bytes();
        write!(f, "{first}.{second}.{third}.{fourth}")
    }
}

// The end of a packet's line: its ports, where it has any.
#[derive(Clone, Copy)]
struct PortsShown(Option<Ports>);

impl fmt::Display for PortsShown {
    ghost output = { λ p. Some (ports_text p.0) };

    fn fmt<W: fmt::Write>(&self, f: &mut fmt::Formatter<W>) -> fmt::Result {
        match self.0 {
            Some(ports) => write!(f, " ports {} {}", ports.source, ports.destination),
            None => Ok(()),
        }
    }
}

impl fmt::Display for LineFault {
    ghost output = { λ e. Some (text (said_of_fault e)) };

    fn fmt<W: fmt::Write>(&self, f: &mut fmt::Formatter<W>) -> fmt::Result {
        match self {
            LineFault::Denied(fault) => {
                let number = fault.number();
                write!(f, "denied {number}")
            }
            LineFault::TooLong => write!(f, "long"),
            LineFault::CutShort => write!(f, "short"),
        }
    }
}

impl fmt::Display for Line<'_> {
    ghost output = { λ l. Some (text (said l)) };

    fn fmt<W: fmt::Write>(&self, f: &mut fmt::Formatter<W>) -> fmt::Result {
        match self.0 {
            Ok(packet) => {
                let source = Dotted(packet.source);
                let destination = Dotted(packet.destination);
                let protocol = packet.protocol;
                let payload = packet.payload.len();
                let ports = PortsShown(packet.ports);
                write!(
                    f,
                    "packet {source} {destination} protocol {protocol} payload {payload}{ports}"
                )
            }
            Err(fault) => write!(f, "{fault}"),
        }
    }
}

// The packet that an item holds, or the first thing that is wrong.
fn packet_of<'i>(item: Result<Item<'i>, ItemFault>) -> Result<Packet<'i>, LineFault>
    ensures { Some (outcome result) ≡ told_of (meant (Some item.entry)) }
{
    Ok(packets::read(item?.packet)?)
}

// The line of an item, or of what stands in its place; the end of the input has none.
pub fn tell<'i>(item: Option<Result<Item<'i>, ItemFault>>) -> Option<Line<'i>>
    ensures { said_of result ≡ told_of (meant item.entry) }
{
    Some(Line(packet_of(item?)))
}

// The lines of a whole input, each with its line feed.
pub fn report(heap: Global, input: &[u8]) -> Result<String, AllocError>
    ensures { IfOk result (λ s. string_bytes s ≡ lines 65536 input.now) }
{
    let mut text = String::new(heap);
    let mut items = Items::new(input).take(MOST_ITEMS);
    while let Some(line) = tell(items.next()) {
        text.push_str(format!(in heap; "{line}\n")?.as_str())?;
    }
    Ok(text)
}

// A line and its line feed, in memory on the stack: printing needs no heap, and hands a line over whole.
fn shown(line: &Line<'_>) -> io::Result<ArrayString<LINE_BYTES>>
    ensures { IfOk result (λ s. s.bytes ≡ text (said line.now) ++ (10 ∷ [])) }
{
    let mut shown = ArrayString::new();
    writeln!(shown, "{line}")?;
    Ok(shown)
}

// Whether another item may stand behind this one: behind a whole one only.
fn goes_on(item: Option<Result<Item<'_>, ItemFault>>) -> bool
    ensures { result ≡ goes_on (meant item.entry) }
{
    matches!(item, Some(Ok(_)))
}

// Prints the lines of an input that comes by reads, each as soon as its item is read, through a buffer of one item.
// No iterator gives these items: each lies in the buffer that the next one is read into.
pub fn print_report<R: Read, W: Write>(input: &mut R, out: &mut W) -> io::Result<()>
    ensures { OnOk result (IfSome (R.remaining input.old) (λ b. Appends (W.contents out.old) (W.contents out.new) (lines 65536 b))) }
{
    let mut bytes = [0u8; ITEM_BYTES];
    for _ in 0..MOST_ITEMS {
        let item = Items::new(next_item(input, &mut bytes)?).next();
        let Some(line) = tell(item) else {
            break;
        };
        out.write_all(shown(&line)?.as_bytes())?;
        if !goes_on(item) {
            break;
        }
    }
    Ok(())
}
