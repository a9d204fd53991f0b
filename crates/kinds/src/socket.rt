// Sockets: kind 3, 16 bits. A socket of the venue has a hall (4 bits), a row (6 bits) and its place in the row (6 bits).
ghost use Rattle.std.specs.Prelude.{◌≡◌, ℕ, ◌+◌, ◌*◌, ◌/◌, ◌%◌, ◌^◌, ◌<◌, MatchOption, is_some};
ghost use Rattle.kinds.specs.Strings.{bits};
ghost use Rattle.kinds.specs.Parts.{hall_fits, row_fits, socket_fits, packed_hall, packed_row, packed_socket, packed_below};
ghost use Rattle.kinds.specs.Packed.{below_some, below_again, same_three};
ghost use Rattle.kinds.specs.Bits.{length_bits};
ghost use Rattle.kinds.specs.Patterns.{below};
ghost use Rattle.std.proofs.Common.{ap, rules, arith};

use crate::address::Address;
use crate::written::{PatternFault, Written};

#[derive(Clone, Copy, PartialEq, Eq, Debug)]
pub struct Socket {
    hall: u8,
    row: u8,
    socket: u8,
    ghost halls: { hall < 16 },
    ghost rows: { row < 64 },
    ghost sockets: { socket < 64 },
}

impl Socket {
    // The socket of these three numbers, or none where one is too large for its bits.
    pub fn new(hall: u8, row: u8, socket: u8) -> Option<Socket>
        ensures { MatchOption result ((hall < 16) × (row < 64) × (socket < 64) → ⊥) (λ x. (x.hall ≡ hall) × (x.row ≡ row) × (x.socket ≡ socket)) }
    {
        if hall < 16 && row < 64 && socket < 64 {
            Some(Socket { hall, row, socket })
        } else {
            None
        }
    }

    pub fn hall(&self) -> u8
        ensures { result ≡ self.now.hall }
    {
        self.hall
    }

    pub fn row(&self) -> u8
        ensures { result ≡ self.now.row }
    {
        self.row
    }

    pub fn socket(&self) -> u8
        ensures { result ≡ self.now.socket }
    {
        self.socket
    }
}

// The socket that is packed into a number.
impl From<u16> for Socket {
    ghost from_gives = { λ n x. x.hall * 4096 + x.row * 64 + x.socket ≡ n };

    fn from(number: u16) -> Socket {
        Socket {
            hall: (number >> 12) as u8,
            row: low_six(number >> 6) as u8,
            socket: low_six(number) as u8,
        }
    }
}

// The number into which a socket is packed.
impl From<Socket> for u16 {
    ghost from_gives = { λ x n. n ≡ x.hall * 4096 + x.row * 64 + x.socket };

    fn from(socket: Socket) -> u16 {
        join(
            join(socket.hall as u16, socket.row as u16),
            socket.socket as u16,
        )
    }
}

// The lowest six bits.
fn low_six(n: u16) -> u16
    ensures { result ≡ n % 64 }
{
    n & 63
}

// A field of six bits behind what stands before it.
fn join(before: u16, field: u16) -> u16
    requires { (before < 1024) × (field < 64) }
    ensures { result ≡ before * 64 + field }
{
    before << 6 | field
}

impl Written for Socket {
    type Pattern = u16;

    const CODE: u8 = 3;

    const SIZE: u32 = 16;

    ghost CODE = { 3 };

    ghost SIZE = { 16 };

    ghost number = { λ p. p };

    ghost pattern = { λ x. x.hall * 4096 + x.row * 64 + x.socket };

    ghost reads = { below (2 ^ 16) (λ n h. record { hall = n / 4096; row = n / 64 % 64; socket = n % 64; halls = hall_fits n h; rows = row_fits n; sockets = socket_fits n }) };

    ghost value = { below (2 ^ 16) (λ n h. record { hall = n / 4096; row = n / 64 % 64; socket = n % 64; halls = hall_fits n h; rows = row_fits n; sockets = socket_fits n }) };

    ghost low = { Prim.search rules };

    ghost bytes = { Prim.search rules };

    ghost short = { Prim.search rules };

    ghost held = { Prim.search rules };

    ghost plain = { Prim.search rules };

    ghost fits = { Prim.search rules };

    ghost valued = { Prim.search rules };

    ghost again = { below_again (2 ^ 16) (λ n h. record { hall = n / 4096; row = n / 64 % 64; socket = n % 64; halls = hall_fits n h; rows = row_fits n; sockets = socket_fits n }) (λ x. x.hall * 4096 + x.row * 64 + x.socket) (λ x. packed_below x.hall x.row x.socket x.halls x.rows x.sockets) (λ x h. same_three (λ a b c i j k. record { hall = a; row = b; socket = c; halls = i; rows = j; sockets = k }) (packed_hall x.hall x.row x.socket x.rows x.sockets) (packed_row x.hall x.row x.socket x.rows x.sockets) (packed_socket x.hall x.row x.socket x.sockets) (hall_fits (x.hall * 4096 + x.row * 64 + x.socket) h) (row_fits (x.hall * 4096 + x.row * 64 + x.socket)) (socket_fits (x.hall * 4096 + x.row * 64 + x.socket)) x.halls x.rows x.sockets) };

    ghost back = { Prim.search rules };

    fn read(from: u16) -> Result<Self, PatternFault> {
        Ok(Socket::from(from))
    }

    fn write(&self) -> u16 {
        u16::from(*self)
    }
}

impl Address for Socket {
    const WIDTH: u32 = 16;

    ghost WIDTH = { 16 };

    ghost spells = { bits 16 };

    ghost string = { λ x. bits 16 (x.hall * 4096 + x.row * 64 + x.socket) };

    ghost span = { Prim.search rules };

    ghost first = { Prim.search rules };

    ghost spelt = { Prim.search rules };

    ghost long = { λ x. length_bits 16 (x.hall * 4096 + x.row * 64 + x.socket) };

    ghost every = { λ n h. ap is_some (below_some (2 ^ 16) (λ m k. record { hall = m / 4096; row = m / 64 % 64; socket = m % 64; halls = hall_fits m k; rows = row_fits m; sockets = socket_fits m }) n h) };

    fn of(from: u16) -> Self {
        Socket::from(from)
    }
}
