ghost use Rattle.cilk_checker.specs.Meanings.{means_array, seen};
ghost use Rattle.cilk_tree.specs.Lawful.Scope.{is_known};
ghost use Rattle.std.specs.Prelude.{◌≡◌};

use cilk_tree::Function;

/// What a name stands for at a point of a program.
#[derive(Clone, Copy)]
pub(crate) enum Meaning<'a> {
    Unknown,
    /// a parameter or local, by its number
    Variable(usize),
    Array,
    Procedure(&'a Function),
}

impl<'a> Meaning<'a> {
    /// Whether it stands for anything.
    pub(crate) fn is_known(self) -> bool
        ensures { result ≡ is_known (seen self.entry) }
    {
        !matches!(&self, Meaning::Unknown)
    }

    /// Whether it is an array.
    pub(crate) fn is_array(self) -> bool
        ensures { result ≡ means_array (seen self.entry) }
    {
        matches!(&self, Meaning::Array)
    }
}
