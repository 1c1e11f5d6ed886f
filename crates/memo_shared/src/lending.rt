// The passes of a list, lent in order.
ghost use Rattle.std.specs.Prelude.{◌≡◌};
ghost use Rattle.std.specs.Borrow.{sem};
ghost use Rattle.memo_shared.specs.Lent.{LendsPasses};

use crate::lists::MemoPassList;
use crate::memo::MemoPass;

impl MemoPassList {
    /// The passes in order, to work with. It takes no memory.
    pub fn all_mut(&mut self) -> &mut [MemoPass]
        ensures* writes_back { sem 𝓛 (LendsPasses self.entry result) }
        ensures value { result.now ≡ self.old }
    {
        &mut self.passes
    }
}
