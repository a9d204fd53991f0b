// Sockets and tariffs at their limits, and the patterns that they are written as.
use kinds::socket::Socket;
use kinds::tariff::Tariff;
use kinds::written::Written;
use std::test::Fail;

// hall, row and socket, and their bits one behind the other
const SOCKETS: [(u8, u8, u8, u16); 9] = [
    (0, 0, 0, 0x0000),
    (15, 63, 63, 0xffff),
    (15, 0, 0, 0xf000),
    (0, 63, 0, 0x0fc0),
    (0, 0, 63, 0x003f),
    (1, 0, 0, 0x1000),
    (0, 1, 0, 0x0040),
    (0, 0, 1, 0x0001),
    (10, 42, 21, 0xaa95),
];

// one number too large for its bits
const NO_SOCKETS: [(u8, u8, u8); 7] = [
    (16, 0, 0),
    (0, 64, 0),
    (0, 0, 64),
    (16, 63, 63),
    (15, 64, 63),
    (15, 63, 64),
    (255, 255, 255),
];

// class and price, and their bits one behind the other
const TARIFFS: [(u8, u32, u32); 7] = [
    (0, 0, 0x0000_0000),
    (9, 268_435_455, 0x9fff_ffff),
    (9, 0, 0x9000_0000),
    (0, 268_435_455, 0x0fff_ffff),
    (1, 1, 0x1000_0001),
    (8, 1, 0x8000_0001),
    (5, 0xabcdef, 0x50ab_cdef),
];

const NO_TARIFFS: [(u8, u32); 6] = [
    (10, 0),
    (0, 268_435_456),
    (10, 268_435_455),
    (9, 268_435_456),
    (255, 1),
    (0, 0xffff_ffff),
];

// classes from 10 to 15
const UNLAWFUL: [u32; 8] = [
    0xa000_0000,
    0xafff_ffff,
    0xb000_0000,
    0xb000_0001,
    0xc000_0000,
    0xd123_4567,
    0xe000_0000,
    0xffff_ffff,
];

#[test]
fn sockets(rt: HostRuntime) -> Result<(), Fail> {
    for (hall, row, socket, pattern) in SOCKETS {
        let made = Socket::new(hall, row, socket).ok_or(pattern)?;
        assert_eq!(rt; made.write(), pattern);
        let read = Socket::read(pattern)?;
        assert_eq!(rt; read, made);
        assert_eq!(rt;
            (read.hall(), read.row(), read.socket()),
            (hall, row, socket)
        );
    }
    for (hall, row, socket) in NO_SOCKETS {
        assert!(rt; Socket::new(hall, row, socket).is_none(), "{}", hall);
    }
    Ok(())
}

#[test]
fn tariffs(rt: HostRuntime) -> Result<(), Fail> {
    for (class, price, pattern) in TARIFFS {
        let made = Tariff::new(class, price).ok_or(pattern)?;
        assert_eq!(rt; made.write(), pattern);
        let read = Tariff::read(pattern)?;
        assert_eq!(rt; read, made);
        assert_eq!(rt; (read.class(), read.price()), (class, price));
    }
    for (class, price) in NO_TARIFFS {
        assert!(rt; Tariff::new(class, price).is_none(), "{}", price);
    }
    Ok(())
}

#[test]
fn unlawful_tariffs(rt: HostRuntime) {
    for pattern in UNLAWFUL {
        let refused = Tariff::read(pattern).err().map(|fault| fault.number());
        assert_eq!(rt; refused, Some(18), "{}", pattern);
    }
}
