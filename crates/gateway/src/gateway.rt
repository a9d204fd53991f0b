// A book and a grid in two lent memories, and the calls on them.
ghost use Rattle.std.specs.Prelude.{◌≡◌, ◌+◌, ◌<◌, [], length, MatchResult};
ghost use Rattle.grid.specs.Refusals.{trail_verdict};
ghost use Rattle.gateway.specs.declared.history.Call.TheVariants.{Add, Withdraw, Clear, Load, Install, Build, Trail};
ghost use Rattle.gateway.specs.Assurance.{kinds_in, Right, answer_of, Writes, After, Follows};
ghost use Rattle.gateway.specs.Calls.{Adds, Withdraws, Clears, Loads, Builds, Installs};
ghost use Rattle.gateway.specs.History.{Left, made};
ghost use Rattle.gateway.specs.Kinds.{ahead};
ghost use Rattle.grid.specs.Derived.{Derived};

use crate::fault::InstallFault;
use book::book::Book;
use book::fault::{AddFault, WithdrawFault};
use filters::directive::Directive;
use filters::filter::Filter;
use grid::build::BuildFault;
use grid::grid::Grid;
use grid::trail::TrailFault;
use kinds::address::Address;
use kinds::cost::Cost;
use tables::fault::LoadFault;

// What an installed table comes to.
#[derive(Clone, Copy, PartialEq, Eq, Debug)]
pub struct Installed {
    // how many filters are in the book
    pub filters: usize,
    // how many nodes the grid has
    pub nodes: u32,
}

// A gateway over a book and a grid, each in memory of its own.
#[derive(Drop)]
pub struct Gateway<'b, 'g, 'f, 'n, D: Address, S: Address, C: Cost> {
    book: &'b mut Book<'f, D, S, C>,
    grid: &'g mut Grid<'n, D, S, C>,
}

impl<'b, 'g, 'f, 'n, D: Address, S: Address, C: Cost> Gateway<'b, 'g, 'f, 'n, D, S, C> {
    // The gateway of a book and a grid. A new book and a new grid make one that no call was made of.
    pub fn new(book: &'b mut Book<'f, D, S, C>, grid: &'g mut Grid<'n, D, S, C>) -> Self
        ensures book { result.book.now ≡ book.old }
        ensures grid { result.grid.now ≡ grid.old }
        ensures history { book.old.used ≡ 0 → Derived (ahead (kinds_in result)) [] grid.old.nodes.now grid.old.used → After (kinds_in result) made result }
    {
        Gateway { book, grid }
    }

    // Puts a filter behind the last of the book. A refused filter changes nothing.
    pub fn add(&mut self, filter: &Filter<D, S, C>) -> Result<(), AddFault>
        ensures book { Adds (kinds_in self.old) filter.now result self.old.book.now self.new.book.now }
        ensures grid { self.new.grid.now ≡ self.old.grid.now }
        ensures history { Follows (kinds_in self.old) (Add filter.now) self.old self.new }
    {
        self.book.add(filter)
    }

    // Takes the filter of a label out of the book. An unknown label changes nothing.
    pub fn withdraw(&mut self, label: u16) -> Result<(), WithdrawFault>
        ensures book { Withdraws (kinds_in self.old) label result self.old.book.now self.new.book.now }
        ensures grid { self.new.grid.now ≡ self.old.grid.now }
        ensures history { Follows (kinds_in self.old) (Withdraw label) self.old self.new }
    {
        self.book.withdraw(label)
    }

    // Empties the book; the grid goes on with the filters that were built last.
    pub fn clear(&mut self)
        ensures book { Clears (kinds_in self.old) self.old.book.now self.new.book.now }
        ensures grid { self.new.grid.now ≡ self.old.grid.now }
        ensures history { Follows (kinds_in self.old) (Clear) self.old self.new }
    {
        self.book.clear();
    }

    // Makes the book exactly the filters of a table. A refused table changes nothing.
    pub fn load(&mut self, table: &[u8]) -> Result<usize, LoadFault>
        ensures book { Loads (kinds_in self.old) table.now result self.old.book.now self.new.book.now }
        ensures grid { self.new.grid.now ≡ self.old.grid.now }
        ensures history { Follows (kinds_in self.old) (Load table.entry) self.old self.new }
    {
        self.book.load(table)
    }

    // Builds the grid of the book's filters. Where the node places are too few nothing changes.
    pub fn build(&mut self) -> Result<u32, BuildFault>
        ensures grid { Builds (kinds_in self.old) result self.old.book.now self.old.grid.now self.new.grid.now }
        ensures book { self.new.book.now ≡ self.old.book.now }
        ensures history { Follows (kinds_in self.old) (Build) self.old self.new }
    {
        self.grid.build(self.book)
    }

    // Loads a table and then builds its grid. A refused table changes nothing; where only the build is refused the new book
    // stays and the old grid serves.
    pub fn install(&mut self, table: &[u8]) -> Result<Installed, InstallFault>
        ensures leaves { Installs (kinds_in self.old) table.now result self.old.book.now self.new.book.now self.old.grid.now self.new.grid.now }
        ensures history { Follows (kinds_in self.old) (Install table.entry) self.old self.new }
    {
        let filters = self.book.load(table)?;
        let nodes = self.grid.build(self.book)?;
        Ok(Installed { filters, nodes })
    }

    // The best built filter that matches the two addresses, by its label and directive, and how many nodes were visited.
    pub fn classify(&self, destination: &D, source: &S) -> (Option<(u16, Directive)>, u32)
        ensures answer { (l : Left C) → After (kinds_in self.now) l self.now → result ≡ answer_of (kinds_in self.now) l.built (D.Address.string destination.now) (S.Address.string source.now) }
        ensures right { (l : Left C) → After (kinds_in self.now) l self.now → Right C.Cost.order D.Address.WIDTH S.Address.WIDTH l.built (D.Address.string destination.now) (S.Address.string source.now) result }
    {
        self.grid.classify(destination, source)
    }

    // Classifies, and writes the places of the visited nodes in order, from the trail's first place on. Where the trail has fewer
    // places than a lookup may visit nodes it is refused, and nothing is written.
    pub fn trail(
        &self,
        destination: &D,
        source: &S,
        trail: &mut [u32],
    ) -> Result<(Option<(u16, Directive)>, u32), TrailFault>
        ensures answer { (l : Left C) → After (kinds_in self.now) l self.now → result ≡ trail_verdict (length trail.old) D.Address.WIDTH S.Address.WIDTH (answer_of (kinds_in self.now) l.built (D.Address.string destination.now) (S.Address.string source.now)) }
        ensures right { (l : Left C) → After (kinds_in self.now) l self.now → MatchResult result (λ a. Right C.Cost.order D.Address.WIDTH S.Address.WIDTH l.built (D.Address.string destination.now) (S.Address.string source.now) a) (λ _. length trail.old < D.Address.WIDTH + S.Address.WIDTH + 2) }
        ensures memory { Writes (kinds_in self.now) (Trail destination.now source.now) self.now trail.old trail.new }
        ensures same { length trail.old < D.Address.WIDTH + S.Address.WIDTH + 2 → trail.new ≡ trail.old }
    {
        self.grid.trail(destination, source, trail)
    }

    // How many nodes the grid has.
    pub fn nodes(&self) -> u32
        ensures { result ≡ self.now.grid.now.used }
    {
        self.grid.len()
    }
}
