// Histories: the making of a book and a grid, any list of calls, and a lookup behind them.
ghost use Rattle.std.specs.Prelude.{◌≡◌, ◌+◌, ◌<◌, ◌≤◌, length};
ghost use Rattle.book.specs.Books.{capacity_of};
ghost use Rattle.gateway.specs.Assurance.{kinds_in, Follows, Writes, Assured, Marked, Assurance};
ghost use Rattle.gateway.specs.History.{past};
ghost use Rattle.gateway.specs.Kinds.{kinds_of};

use crate::gateway::Gateway;
use book::book::Book;
use filters::directive::Directive;
use filters::filter::{Filter, Record};
use grid::grid::Grid;
use grid::node::Node;
use grid::trail::TrailFault;
use kinds::address::Address;
use kinds::cost::Cost;

// A call of a gateway, with its arguments. An enum and no closures: what a history leaves is defined from its calls as data.
#[derive(Clone, Copy)]
pub enum Call<'c, D, S, C> {
    Add(Filter<D, S, C>),
    Withdraw(u16),
    Clear,
    Load(&'c [u8]),
    Install(&'c [u8]),
    Build,
    Classify(D, S),
    // with the trail memory of the history
    Trail(D, S),
}

// What comes of a history and a lookup behind it.
#[derive(Clone, Copy, PartialEq, Eq, Debug)]
pub struct Outcome {
    // the choice and the visits of classifying
    pub found: (Option<(u16, Directive)>, u32),
    // those of trailing, or its refusal
    pub trailed: Result<(Option<(u16, Directive)>, u32), TrailFault>,
    // how many nodes the last accepted build made
    pub nodes: u32,
}

// Makes a call; what it answers is let go.
fn make_call<D: Address, S: Address, C: Cost>(
    gateway: &mut Gateway<D, S, C>,
    call: &Call<D, S, C>,
    trail: &mut [u32],
)
    ensures history { Follows (kinds_in gateway.old) call.now gateway.old gateway.new }
    ensures memory { Writes (kinds_in gateway.old) call.now gateway.old trail.old trail.new }
    ensures same { length trail.old < D.Address.WIDTH + S.Address.WIDTH + 2 → trail.new ≡ trail.old }
{
    match call {
        Call::Add(filter) => {
            let _ = gateway.add(filter);
        }
        Call::Withdraw(label) => {
            let _ = gateway.withdraw(*label);
        }
        Call::Clear => gateway.clear(),
        Call::Load(table) => {
            let _ = gateway.load(table);
        }
        Call::Install(table) => {
            let _ = gateway.install(table);
        }
        Call::Build => {
            let _ = gateway.build();
        }
        Call::Classify(destination, source) => {
            let _ = gateway.classify(destination, source);
        }
        Call::Trail(destination, source) => {
            let _ = gateway.trail(destination, source, trail);
        }
    }
}

// Makes a book and a grid in memory of any content, makes the calls, and looks two addresses up. The three memories are lent one by
// one: of a struct that lends them, the check does not cover what is lent on to a book and a grid.
pub fn replay<D: Address, S: Address, C: Cost>(
    places: &mut [Record<D, S, C>],
    nodes: &mut [Node],
    trail: &mut [u32],
    calls: &[Call<D, S, C>],
    destination: &D,
    source: &S,
) -> Outcome
    ensures assured { Assured (kinds_of D.Address.own D.Written D.Pattern.Plain S.Address.own S.Written S.Pattern.Plain C.Cost.own C.Written C.Pattern.Plain) (past (kinds_of D.Address.own D.Written D.Pattern.Plain S.Address.own S.Written S.Pattern.Plain C.Cost.own C.Written C.Pattern.Plain) (capacity_of (length places.old)) (length nodes.old) calls.now) (D.Address.string destination.now) (S.Address.string source.now) (length trail.old) result }
    ensures same { length trail.old < D.Address.WIDTH + S.Address.WIDTH + 2 → trail.new ≡ trail.old }
    ensures marked { D.Address.WIDTH + S.Address.WIDTH + 2 ≤ length trail.old → Marked (past (kinds_of D.Address.own D.Written D.Pattern.Plain S.Address.own S.Written S.Pattern.Plain C.Cost.own C.Written C.Pattern.Plain) (capacity_of (length places.old)) (length nodes.old) calls.now).built (D.Address.string destination.now) (S.Address.string source.now) trail.new }
{
    let mut book = Book::new(places);
    let mut grid = Grid::new(nodes);
    let mut gateway = Gateway::new(&mut book, &mut grid);
    for call in calls {
        make_call(&mut gateway, call, trail);
    }
    let found = gateway.classify(destination, source);
    let trailed = gateway.trail(destination, source, trail);
    Outcome {
        found,
        trailed,
        nodes: gateway.nodes(),
    }
}

// Two histories in two memories of any content, and the same lookup behind each. This is the assurance, whole: each lookup is right
// for the filters that its history built last, and histories that built the same filters, in any order, end in the same choice
// and visits.
pub fn replay_two<D: Address, S: Address, C: Cost>(
    places: &mut [Record<D, S, C>],
    nodes: &mut [Node],
    trail: &mut [u32],
    calls: &[Call<D, S, C>],
    other_places: &mut [Record<D, S, C>],
    other_nodes: &mut [Node],
    other_trail: &mut [u32],
    other_calls: &[Call<D, S, C>],
    destination: &D,
    source: &S,
) -> (Outcome, Outcome)
    ensures assurance { Assurance (kinds_of D.Address.own D.Written D.Pattern.Plain S.Address.own S.Written S.Pattern.Plain C.Cost.own C.Written C.Pattern.Plain) (past (kinds_of D.Address.own D.Written D.Pattern.Plain S.Address.own S.Written S.Pattern.Plain C.Cost.own C.Written C.Pattern.Plain) (capacity_of (length places.old)) (length nodes.old) calls.now) (past (kinds_of D.Address.own D.Written D.Pattern.Plain S.Address.own S.Written S.Pattern.Plain C.Cost.own C.Written C.Pattern.Plain) (capacity_of (length other_places.old)) (length other_nodes.old) other_calls.now) (D.Address.string destination.now) (S.Address.string source.now) (length trail.old) (length other_trail.old) result }
    ensures same { length trail.old < D.Address.WIDTH + S.Address.WIDTH + 2 → trail.new ≡ trail.old }
    ensures marked { D.Address.WIDTH + S.Address.WIDTH + 2 ≤ length trail.old → Marked (past (kinds_of D.Address.own D.Written D.Pattern.Plain S.Address.own S.Written S.Pattern.Plain C.Cost.own C.Written C.Pattern.Plain) (capacity_of (length places.old)) (length nodes.old) calls.now).built (D.Address.string destination.now) (S.Address.string source.now) trail.new }
    ensures other { length other_trail.old < D.Address.WIDTH + S.Address.WIDTH + 2 → other_trail.new ≡ other_trail.old }
    ensures other_marked { D.Address.WIDTH + S.Address.WIDTH + 2 ≤ length other_trail.old → Marked (past (kinds_of D.Address.own D.Written D.Pattern.Plain S.Address.own S.Written S.Pattern.Plain C.Cost.own C.Written C.Pattern.Plain) (capacity_of (length other_places.old)) (length other_nodes.old) other_calls.now).built (D.Address.string destination.now) (S.Address.string source.now) other_trail.new }
{
    let first = replay(places, nodes, trail, calls, destination, source);
    let second = replay(
        other_places,
        other_nodes,
        other_trail,
        other_calls,
        destination,
        source,
    );
    (first, second)
}
