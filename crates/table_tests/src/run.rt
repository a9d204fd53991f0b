// Runs the cases: each is loaded, and written again.
use filters::directive::Directive;
use filters::filter::{Filter, Prefix};
use hex::{FromHexError, decode};
use kinds::address::Address;
use kinds::cost::Cost;
use kinds::ipv4::Ipv4;
use kinds::ipv6::Ipv6;
use kinds::plain::Plain;
use kinds::rank::Rank;
use kinds::socket::Socket;
use kinds::tariff::Tariff;
use std::alloc::{AllocError, Global};
use tables::check::check_table;
use tables::turn::load_and_write;

// The bytes of hexadecimal digits; spaces between them are passed over.
pub fn bytes(heap: Global, text: &str) -> Result<Vec<u8>, FromHexError> {
    decode(heap, text.replace(heap, ' ', "")?.as_str())
}

// Whether the table, loaded and written again, gives the same bytes and leaves those behind them.
fn turns<D: Address, S: Address, C: Cost>(
    heap: Global,
    table: &[u8],
    capacity: usize,
) -> Result<bool, AllocError> {
    let empty = Filter {
        label: 0,
        destination: Prefix {
            address: D::Pattern::narrow(0),
            length: 0,
        },
        source: Prefix {
            address: S::Pattern::narrow(0),
            length: 0,
        },
        cost: C::Pattern::narrow(0),
        directive: Directive::Block,
    };
    let mut places = vec![in heap; empty; capacity]?;
    let mut buffer = vec![in heap; 0xaau8; table.len()]?;
    buffer.push(0xbb)?;
    let turned = load_and_write::<D, S, C>(table, places.as_mut_slice(), buffer.as_mut_slice());
    let mut expected = Vec::new(heap);
    expected.extend_from_slice(table)?;
    expected.push(0xbb)?;
    Ok(turned.is_ok() && buffer.as_slice() == expected.as_slice())
}

// What loading a table answers.
fn outcome<D: Address, S: Address, C: Cost>(
    heap: Global,
    table: &[u8],
    capacity: usize,
) -> Result<String, AllocError> {
    match check_table::<D, S, C>(table, capacity) {
        Ok(count) => {
            if turns::<D, S, C>(heap, table, capacity)? {
                format!(in heap; "accepted {count}")
            } else {
                format!(in heap; "accepted {count}, and written otherwise")
            }
        }
        Err(fault) => format!(in heap; "record {} refusal {}", fault.record(), fault.number()),
    }
}

// The same for the kinds with these codes. One arm a line: each runs code of other types, which no table of values can name.
fn answer(heap: Global, kinds: &str, table: &[u8], capacity: usize) -> Result<String, AllocError> {
    match kinds {
        "111" => outcome::<Ipv4, Ipv4, Rank>(heap, table, capacity),
        "131" => outcome::<Ipv4, Socket, Rank>(heap, table, capacity),
        "221" => outcome::<Ipv6, Ipv6, Rank>(heap, table, capacity),
        "112" => outcome::<Ipv4, Ipv4, Tariff>(heap, table, capacity),
        "232" => outcome::<Ipv6, Socket, Tariff>(heap, table, capacity),
        _ => format!(in heap; "no such kinds"),
    }
}

// The kinds, the capacity, the table and the answer expected of a case, `NAME: KINDS CAPACITY TABLE -> ANSWER`; none where it is no case.
fn parts(case: &str) -> Option<(&str, usize, &str, &str)> {
    let (_, rest) = case.split_once(": ")?;
    let (input, expected) = rest.split_once(" -> ")?;
    let (kinds, numbers) = input.split_once(" ")?;
    let (capacity, table) = numbers.split_once(" ")?;
    Some((kinds, capacity.parse::<usize>().ok()?, table, expected))
}

// Whether a case holds.
fn holds(heap: Global, case: &str) -> Result<bool, FromHexError> {
    let Some((kinds, capacity, table, expected)) = parts(case) else {
        return Ok(false);
    };
    let text = answer(heap, kinds, bytes(heap, table)?.as_slice(), capacity)?;
    Ok(text.as_str() == expected)
}

// The cases of a table that do not hold, or are not written as cases. Crate packet_tests has the same: one function for both would take
// the test as a closure, in a crate of its own, and its contract could say nothing of so many answers.
pub fn failing(heap: Global, table: &str) -> Result<String, FromHexError> {
    let mut cases = String::new(heap);
    for case in table.lines() {
        if !holds(heap, case)? {
            cases.push_str(case)?;
            cases.push('\n')?;
        }
    }
    Ok(cases)
}
