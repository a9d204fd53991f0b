// Books at no place, at one place, and full.
use crate::places::*;
use book::book::Book;
use filters::search::linear_search;
use kinds::address::Address;
use kinds::rank::Rank;
use kinds::socket::Socket;
use std::test::Fail;

#[test]
fn no_place(rt: HostRuntime) {
    let mut memory: [Place; 0] = [];
    let mut book = Book::<Socket, Socket, Rank>::new(&mut memory);
    assert_eq!(rt; book.capacity(), 0);
    assert_eq!(rt; number(book.add(&any(0))), 1);
    assert_eq!(rt; number(book.add(&any(1))), 6);
    assert_eq!(rt; book.len(), 0);
    assert!(rt; book.get(0).is_none());
    assert!(rt; book.withdraw(1).is_err());
    book.clear();
    assert!(rt;
        linear_search::<Socket, Socket, Rank>(
            book.records(),
            &Socket::of(0),
            &Socket::of(0),
        ).is_none()
    );
}

#[test]
fn one_place(rt: HostRuntime) -> Result<(), Fail> {
    let mut memory = [JUNK];
    let mut book = Book::<Socket, Socket, Rank>::new(&mut memory);
    assert_eq!(rt; book.capacity(), 1);
    assert!(rt; book.get(0).is_none());
    book.add(&any(1))?;
    assert_eq!(rt; number(book.add(&any(1))), 5);
    assert_eq!(rt; number(book.add(&any(2))), 6);
    assert_eq!(rt; book.len(), 1);
    assert!(rt; book.contains(1) && !book.contains(2));
    assert!(rt; book.get(0).is_some() && book.get(1).is_none());
    book.withdraw(1)?;
    book.add(&any(2))?;
    assert!(rt; book.contains(2) && !book.contains(1));
    Ok(())
}

// 4,097 places: the last two are never used.
#[test]
fn most_places(rt: HostRuntime) -> Result<(), Fail> {
    let mut memory = [JUNK; 4097];
    let mut book = Book::<Socket, Socket, Rank>::new(&mut memory);
    assert_eq!(rt; book.capacity(), 4095);
    for label in 1..4096u16 {
        book.add(&any(label))?;
    }
    assert_eq!(rt; number(book.add(&any(4095))), 5);
    assert_eq!(rt; number(book.add(&any(4096))), 6);
    assert_eq!(rt; book.len(), 4095);
    book.withdraw(2000)?;
    book.add(&any(4096))?;
    assert_eq!(rt; number(book.add(&any(2000))), 6);
    let labels = (
        memory[0].label,
        memory[1998].label,
        memory[1999].label,
        memory[4094].label,
    );
    assert_eq!(rt; labels, (1, 1999, 2001, 4096));
    assert_eq!(rt; (memory[4095].label, memory[4096].label), (1, 1));
    Ok(())
}
