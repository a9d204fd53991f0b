// Reading and writing tables are inverse. The functions do nothing: each stands for the law in its contract.
ghost use Rattle.std.specs.Prelude.{ℕ, Bool};
ghost use Rattle.tables.specs.Format.{kind_of};
ghost use Rattle.tables.specs.Laws.{filed, ReadsBack, WritesBack};
ghost use Rattle.tables.specs.Verdict.{Tells};

use kinds::address::Address;
use kinds::cost::Cost;

// A table written and read back is the same list of filters: the table of lawful filters with distinct labels is accepted
// where there is room for them, and its entries are those of the filters, in their order.
pub fn reads_back<D: Address, S: Address, C: Cost>()
    ensures { (lawful : ℕ → Bool) → Tells C.Written.number C.Written.reads lawful → ReadsBack (kind_of D.Written) (kind_of S.Written) (kind_of C.Written) lawful D.Address.string S.Address.string D.Address.WIDTH S.Address.WIDTH (filed D.Written.pattern S.Written.pattern C.Written.pattern D.Written.number S.Written.number C.Written.number) }
{}

// An accepted table written again has the same bytes.
pub fn writes_back<D: Address, S: Address, C: Cost>()
    ensures { (lawful : ℕ → Bool) → WritesBack (kind_of D.Written) (kind_of S.Written) (kind_of C.Written) lawful }
{}
