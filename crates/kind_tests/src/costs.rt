// How costs compare.
use kinds::cost::Cost;
use kinds::rank::Rank;
use kinds::tariff::Tariff;
use std::cmp::Ordering;
use std::test::Fail;

const RANKS: [(u32, u32, Ordering); 7] = [
    (0, 0, Ordering::Equal),
    (0, 1, Ordering::Less),
    (1, 0, Ordering::Greater),
    (255, 256, Ordering::Less),
    (0x8000_0000, 0x7fff_ffff, Ordering::Greater),
    (0xffff_ffff, 0, Ordering::Greater),
    (0xffff_ffff, 0xffff_ffff, Ordering::Equal),
];

// class and price, twice
const TARIFFS: [(u8, u32, u8, u32, Ordering); 9] = [
    (0, 0, 0, 0, Ordering::Equal),
    (9, 268_435_455, 9, 268_435_455, Ordering::Equal),
    (3, 5, 3, 6, Ordering::Less),
    (3, 6, 3, 5, Ordering::Greater),
    (0, 268_435_455, 1, 0, Ordering::Less),
    (9, 0, 8, 268_435_455, Ordering::Greater),
    (2, 7, 5, 3, Ordering::Less),
    (5, 3, 2, 7, Ordering::Greater),
    (4, 1, 5, 1, Ordering::Less),
];

#[test]
fn ranks(rt: HostRuntime) {
    for (first, second, order) in RANKS {
        let (first, second) = (Rank::new(first), Rank::new(second));
        assert_eq!(rt; first.compare(&second), order);
        assert_eq!(rt; first.against(&second), order);
    }
}

#[test]
fn tariffs(rt: HostRuntime) -> Result<(), Fail> {
    for (class, price, other_class, other_price, order) in TARIFFS {
        let first = Tariff::new(class, price).ok_or(price)?;
        let second = Tariff::new(other_class, other_price).ok_or(other_price)?;
        assert_eq!(rt; first.compare(&second), order);
        assert_eq!(rt; first.against(&second), order);
    }
    Ok(())
}
