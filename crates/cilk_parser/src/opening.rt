ghost use Rattle.cilk_parser.specs.Phrases.{opening_counts};
ghost use Rattle.cilk_tree.specs.declared.count.Count.TheVariants.{OneMore};
ghost use Rattle.cilk_tree.specs.declared.count.Counted.TheVariants.{Operators};
ghost use Rattle.std.specs.Prelude.{◌≡◌, ◌≤◌, [], ◌∷◌, ◌++◌, length};

use cilk_tree::{Count, Counted};

/// How an expression begins: as a part of one, as a whole one, or as an argument.
#[derive(Clone, Copy)]
pub(crate) enum Opening {
    Inside,
    Whole,
    Argument,
}

impl Opening {
    /// What the first token counts as.
    pub(crate) fn counts(self) -> &'static [Count]
        ensures same { result.now ≡ opening_counts self }
        ensures few { length result.now ≤ 3 }
    {
        match self {
            Opening::Inside => &[],
            Opening::Whole => &[Count::Anew(Counted::Operators)],
            Opening::Argument => &[
                Count::OneMore(Counted::Arguments),
                Count::Anew(Counted::Operators),
            ],
        }
    }

    /// What it counts as where it is an operator.
    pub(crate) fn operator_counts(self) -> &'static [Count]
        ensures same { result.now ≡ opening_counts self ++ OneMore Operators ∷ [] }
        ensures few { length result.now ≤ 3 }
    {
        match self {
            Opening::Inside => &[Count::OneMore(Counted::Operators)],
            Opening::Whole => &[
                Count::Anew(Counted::Operators),
                Count::OneMore(Counted::Operators),
            ],
            Opening::Argument => &[
                Count::OneMore(Counted::Arguments),
                Count::Anew(Counted::Operators),
                Count::OneMore(Counted::Operators),
            ],
        }
    }
}
