// The trail of a search: the places of the nodes that it visits, in order, in memory that is handed in.
ghost use Rattle.std.specs.Prelude.{◌≡◌, ◌+◌, ◌<◌, ◌≤◌, List, length, MatchResult};
ghost use Rattle.filters.specs.Directives.{named};
ghost use Rattle.filters.specs.Rules.{Rule, better, linear};
ghost use Rattle.filters.specs.Orders.{Apart};
ghost use Rattle.tries.specs.Search.{visits};
ghost use Rattle.grid.specs.Derived.{Derived};
ghost use Rattle.grid.specs.Trails.{Trailed};
ghost use Rattle.grid.specs.declared.trail.TrailFault.TheVariants.{Places};
ghost use Rattle.grid.specs.Refusals.{trail_number, trail_verdict};

use crate::grid::Grid;
use filters::directive::Directive;
use kinds::address::Address;
use kinds::cost::Cost;

// Why a trail is not written.
#[derive(Clone, Copy, PartialEq, Eq, Debug)]
pub enum TrailFault {
    // the trail has fewer places than a search may visit nodes
    Places = 9,
}

impl TrailFault {
    // The number of the refusal.
    pub fn number(self) -> u8
        ensures { result ≡ trail_number self }
    {
        self as u8
    }
}

// The places that are enough for every trail: a node for each bit of both addresses, and both roots.
fn trail_need<D: Address, S: Address>() -> usize
    ensures { result ≡ D.Address.WIDTH + S.Address.WIDTH + 2 }
{
    (D::WIDTH + S::WIDTH + 2) as usize
}

impl<'m, D: Address, S: Address, C: Cost> Grid<'m, D, S, C> {
    // Classifies, and writes the places of the visited nodes in order, from the trail's first place on. Where the trail has fewer
    // places than a search may visit nodes it is refused; then nothing is written, and else nothing behind the visited nodes.
    // Addresses and trail are no struct: it would be made for the call alone.
    pub fn trail(
        &self,
        destination: &D,
        source: &S,
        trail: &mut [u32],
    ) -> Result<(Option<(u16, Directive)>, u32), TrailFault>
        ensures refused { MatchResult result (λ _. D.Address.WIDTH + S.Address.WIDTH + 2 ≤ length trail.old) (λ e. (e ≡ Places) × (length trail.old < D.Address.WIDTH + S.Address.WIDTH + 2) × (trail.new ≡ trail.old)) }
        ensures places { length trail.new ≡ length trail.old }
        ensures answer { (F : List (Rule C)) → Apart F → Derived (better C.Cost.order) F self.now.nodes.now self.now.used → result ≡ trail_verdict (length trail.old) D.Address.WIDTH S.Address.WIDTH (named (linear (better C.Cost.order) F (D.Address.string destination.now) (S.Address.string source.now)), visits F (D.Address.string destination.now) (S.Address.string source.now)) }
        ensures memory { (F : List (Rule C)) → (g : Derived (better C.Cost.order) F self.now.nodes.now self.now.used) → Trailed g.keys F (D.Address.string destination.now) (S.Address.string source.now) trail.old trail.new result }
    {
        if trail.len() < trail_need::<D, S>() {
            return Err(TrailFault::Places);
        }
        Ok(self.lookup(destination, source, trail))
    }
}
