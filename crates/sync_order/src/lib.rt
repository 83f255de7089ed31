//! The values of a block's children may come in any order: none of their targets stands twice, so a sync leaves the same locals.
#![tactic(auto)]

ghost use Rattle.std.specs.Prelude.{ℕ, ℤ, ◌≡◌, List, [], ◌++◌, ◌∷◌, take};
ghost use Rattle.std.specs.List.Sorted.{IsPermutation};
ghost use Rattle.cilk_meaning.specs.Alone.{block_of};
ghost use Rattle.cilk_meaning.specs.Resolved.{Program};
ghost use Rattle.cilk_meaning.specs.Wants.{Answer, Children, Deposit};
ghost use Rattle.machine_code.specs.Machine.{Code, starts};
ghost use Rattle.machine_code.specs.StandsFor.{StandsFor};
ghost use Rattle.sync_order.specs.Orders.{AreApart, AreFittingInAnyOrder, GoesAsOrdered, targets_of};

/// A law, nothing is done: in the block of children by any of an instance's wants, for whatever answers, no target stands twice.
pub fn block_apart()
    ensures { (code : Code) (program : Program) → StandsFor code program → (depth procedure : ℕ) (arguments : List ℤ) (answers : List Answer) (count : ℕ) →
        AreApart (block_of [] (take count (starts code depth procedure arguments answers))) }
{}

/// A law, nothing is done: an instance goes on the same behind a sync whose values come in another order, where none of their targets stands
/// twice.
pub fn order_is_free()
    ensures { (code : Code) (depth procedure : ℕ) (arguments : List ℤ) (answers rest : List Answer) (given other : List Deposit) → AreApart (targets_of given) → IsPermutation given other →
        starts code depth procedure arguments (answers ++ Children given ∷ rest) ≡ starts code depth procedure arguments (answers ++ Children other ∷ rest) }
{}

/// A law, nothing is done: an instance of a program that a code stands for goes on behind answers with the values of children in any order as
/// behind the same answers with those values in the order of the spawns, which are answers that it may get.
pub fn goes_as_ordered()
    ensures { (code : Code) (program : Program) → StandsFor code program → (depth procedure : ℕ) (arguments : List ℤ) (answers : List Answer) →
        AreFittingInAnyOrder program depth procedure arguments answers → GoesAsOrdered program depth procedure arguments answers }
{}
