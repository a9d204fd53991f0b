// A cost kind: its values compare as before, equal or after. It asks no Ord of a kind, which may tie costs that `==` tells apart.
ghost use Rattle.std.specs.Prelude.{◌≡◌, true};
ghost use Rattle.std.specs.declared.cmp.Ordering.{Ordering};
ghost use Rattle.std.specs.Ordering.{ordering_reverse, is_le};

use crate::written::Written;
use std::cmp::Ordering;

pub trait Cost: Written {
    // the order: a function, so exactly one of before (Less), equal and after (Greater) holds
    ghost order: { Self → Self → Ordering };

    fn compare(&self, other: &Self) -> Ordering
        ensures { result ≡ order self.now other.now };

    // exchanging the two exchanges before and after
    ghost exchange: { (x y : Self) → order y x ≡ ordering_reverse (order x y) };

    // "before or equal" passes along a chain
    ghost chain: { (x y z : Self) → is_le (order x y) ≡ true → is_le (order y z) ≡ true → is_le (order x z) ≡ true };
}
