// What each call leaves in memory, the places behind the book's last filter included.
use crate::places::*;
use book::book::Book;
use kinds::rank::Rank;
use kinds::socket::Socket;

// An enum and no closures: the steps stand in a table, with what each leaves.
#[derive(Clone, Copy)]
enum Step {
    Add(u16),
    Withdraw(u16),
    Clear,
}

// a step, the number of its refusal or 0, how many filters are left, and the label at each place; 1 is the label found there
const STEPS: [(Step, u8, usize, [u16; 6]); 18] = [
    (Step::Withdraw(1), 7, 0, [1, 1, 1, 1, 1, 1]),
    (Step::Add(2), 0, 1, [2, 1, 1, 1, 1, 1]),
    (Step::Add(3), 0, 2, [2, 3, 1, 1, 1, 1]),
    (Step::Add(4), 0, 3, [2, 3, 4, 1, 1, 1]),
    (Step::Add(5), 0, 4, [2, 3, 4, 5, 1, 1]),
    (Step::Add(3), 5, 4, [2, 3, 4, 5, 1, 1]),
    (Step::Withdraw(6), 7, 4, [2, 3, 4, 5, 1, 1]),
    // from the middle: later filters move down, and the last place used keeps its content
    (Step::Withdraw(3), 0, 3, [2, 4, 5, 5, 1, 1]),
    (Step::Withdraw(3), 7, 3, [2, 4, 5, 5, 1, 1]),
    // the last
    (Step::Withdraw(5), 0, 2, [2, 4, 5, 5, 1, 1]),
    (Step::Withdraw(5), 7, 2, [2, 4, 5, 5, 1, 1]),
    (Step::Add(0), 1, 2, [2, 4, 5, 5, 1, 1]),
    (Step::Add(1), 0, 3, [2, 4, 1, 5, 1, 1]),
    // the first
    (Step::Withdraw(2), 0, 2, [4, 1, 1, 5, 1, 1]),
    (Step::Clear, 0, 0, [4, 1, 1, 5, 1, 1]),
    (Step::Withdraw(4), 7, 0, [4, 1, 1, 5, 1, 1]),
    (Step::Add(9), 0, 1, [9, 1, 1, 5, 1, 1]),
    (Step::Withdraw(9), 0, 0, [9, 1, 1, 5, 1, 1]),
];

fn take_step(book: &mut Book<Socket, Socket, Rank>, step: Step) -> u8 {
    match step {
        Step::Add(label) => number(book.add(&any(label))),
        Step::Withdraw(label) => book.withdraw(label).err().map_or(0, |fault| fault.number()),
        Step::Clear => {
            book.clear();
            0
        }
    }
}

// The first `count` steps: the last one's number, the length of the book, and the memory behind it.
fn run(count: usize) -> (u8, usize, [Place; 6]) {
    let mut memory = [JUNK; 6];
    let mut book = Book::<Socket, Socket, Rank>::new(&mut memory);
    let mut last = 0;
    for (step, _, _, _) in STEPS.iter().take(count) {
        last = take_step(&mut book, *step);
    }
    let left = book.len();
    (last, left, memory)
}

#[test]
fn every_place(rt: HostRuntime) {
    for (i, (_, refusal, left, labels)) in STEPS.iter().enumerate() {
        let (last, len, memory) = run(i + 1);
        assert_eq!(rt; (last, len), (*refusal, *left), "{}", i);
        for (place, label) in memory.iter().zip(labels) {
            assert_eq!(rt; place.label, *label, "{}", i);
        }
    }
}
