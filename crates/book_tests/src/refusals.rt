// Every refusal of adding, each beside a filter that is accepted, and which comes first where several apply.
use crate::places::number;
use book::book::Book;
use filters::directive::Directive;
use filters::filter::{Filter, Prefix};
use kinds::address::Address;
use kinds::ipv4::Ipv4;
use kinds::rank::Rank;
use kinds::socket::Socket;
use std::process::Abort;
use std::test::Fail;

type Steering = Filter<Ipv4, Socket, Rank>;

const JUNK: Filter<u32, u16, u32> = Filter {
    label: 2,
    destination: Prefix {
        address: 0xdead_beef,
        length: 77,
    },
    source: Prefix {
        address: 0xbeef,
        length: 99,
    },
    cost: 0xffff_ffff,
    directive: Directive::Reserve { line: 0, rate: 0 },
};

const BLOCK: Directive = Directive::Block;

// label, destination and its length, source and its length, directive, and the number of the refusal or 0;
// label 9 is in the book
const CASES: [(u16, u32, u8, u16, u8, Directive, u8); 39] = [
    (0, 0xc633_6400, 24, 0xa000, 3, BLOCK, 1),
    (1, 0xc633_6400, 24, 0xa000, 3, BLOCK, 0),
    (65535, 0xc633_6400, 24, 0xa000, 3, BLOCK, 0),
    (1, 0xc633_6401, 33, 0xa000, 3, BLOCK, 2),
    (1, 0xc633_6401, 32, 0xa000, 3, BLOCK, 0),
    (1, 0, 255, 0, 0, BLOCK, 2),
    (1, 0, 0, 0, 17, BLOCK, 2),
    (1, 0, 0, 0, 16, BLOCK, 0),
    (1, 0, 0, 0xffff, 16, BLOCK, 0),
    (1, 0xc633_6401, 31, 0, 0, BLOCK, 3),
    (1, 0xc633_6402, 31, 0, 0, BLOCK, 0),
    (1, 0x8000_0000, 0, 0, 0, BLOCK, 3),
    (1, 0x8000_0000, 1, 0, 0, BLOCK, 0),
    (1, 0, 0, 0x0001, 15, BLOCK, 3),
    (1, 0, 0, 0x0002, 15, BLOCK, 0),
    (1, 0, 0, 0x8000, 0, BLOCK, 3),
    (1, 0, 0, 0x8000, 1, BLOCK, 0),
    (1, 0, 0, 0, 0, Directive::Line(0), 4),
    (1, 0, 0, 0, 0, Directive::Line(1), 0),
    (1, 0, 0, 0, 0, Directive::Line(63), 0),
    (1, 0, 0, 0, 0, Directive::Line(64), 4),
    (1, 0, 0, 0, 0, Directive::Reserve { line: 0, rate: 1 }, 4),
    (1, 0, 0, 0, 0, Directive::Reserve { line: 1, rate: 1 }, 0),
    (
        1,
        0,
        0,
        0,
        0,
        Directive::Reserve {
            line: 63,
            rate: 16_777_215,
        },
        0,
    ),
    (
        1,
        0,
        0,
        0,
        0,
        Directive::Reserve {
            line: 64,
            rate: 16_777_215,
        },
        4,
    ),
    (
        1,
        0,
        0,
        0,
        0,
        Directive::Reserve {
            line: 63,
            rate: 16_777_216,
        },
        4,
    ),
    (1, 0, 0, 0, 0, Directive::Reserve { line: 1, rate: 0 }, 4),
    (9, 0, 0, 0, 0, BLOCK, 5),
    (8, 0, 0, 0, 0, BLOCK, 0),
    (2, 0, 0, 0, 0, BLOCK, 0),
    // several apply: the smallest number is told
    (0, 0xffff_ffff, 33, 0xffff, 0, Directive::Line(0), 1),
    (9, 0xffff_ffff, 0, 0, 17, Directive::Line(0), 2),
    (9, 0, 33, 0xffff, 0, Directive::Line(0), 2),
    (9, 0xffff_ffff, 0, 0, 0, Directive::Line(0), 3),
    (9, 0, 0, 0xffff, 15, Directive::Line(0), 3),
    (9, 0, 0, 0, 0, Directive::Line(0), 4),
    (9, 0, 0, 0, 0, Directive::Reserve { line: 1, rate: 0 }, 4),
    (9, 0xc633_6400, 24, 0xa000, 3, Directive::Line(1), 5),
    (7, 0xc633_6400, 24, 0xa000, 3, Directive::Line(1), 0),
];

// Adds a filter behind label 9 in memory of so many places; a refused filter leaves everything as it was.
fn attempt(
    rt: &impl Abort,
    memory: &mut [Filter<u32, u16, u32>],
    filter: &Steering,
    refusal: u8,
) -> Result<(), Fail> {
    let mut book = Book::<Ipv4, Socket, Rank>::new(memory);
    let first = Prefix {
        address: Ipv4::new(0),
        length: 0,
    };
    let second = Prefix {
        address: Socket::of(0),
        length: 0,
    };
    book.add(&Filter {
        label: 9,
        destination: first,
        source: second,
        cost: Rank::new(0),
        directive: BLOCK,
    })?;
    assert_eq!(rt; number(book.add(filter)), refusal, "{}", filter.label);
    assert_eq!(rt; book.len(), if refusal == 0 { 2 } else { 1 });
    assert_eq!(rt;
        book.contains(filter.label),
        refusal == 0 || filter.label == 9
    );
    Ok(())
}

#[test]
fn in_order(rt: HostRuntime) -> Result<(), Fail> {
    for (label, destination, length, source, source_length, directive, refusal) in CASES {
        let filter = Filter {
            label,
            destination: Prefix {
                address: Ipv4::new(destination),
                length,
            },
            source: Prefix {
                address: Socket::of(source),
                length: source_length,
            },
            cost: Rank::new(3),
            directive,
        };
        let mut memory = [JUNK; 3];
        attempt(&rt, &mut memory, &filter, refusal)?;
        assert_eq!(rt; memory[1].label, if refusal == 0 { label } else { 2 });
        assert_eq!(rt; memory[1].cost, if refusal == 0 { 3 } else { 0xffff_ffff });
        assert_eq!(rt; memory[2].label, 2);
        // in a full book every other refusal comes first
        let mut memory = [JUNK; 1];
        attempt(
            &rt,
            &mut memory,
            &filter,
            if refusal == 0 { 6 } else { refusal },
        )?;
        assert_eq!(rt; memory[0].label, 9);
    }
    Ok(())
}
