ghost use Rattle.cilk_parser.specs.Tally.{none_counted, counted_on, all_counted_on, is_over, IsBelow};
ghost use Rattle.std.specs.Prelude.{◌≡◌, ◌≤◌, false, length};

use cilk_tree::{Count, Counted};

/// How many there are of each that is counted.
#[derive(Clone, Copy)]
pub(crate) struct Tallies {
    pub(crate) operators: u64,
    pub(crate) parameters: u64,
    pub(crate) arguments: u64,
    pub(crate) variables: u64,
    pub(crate) arrays: u64,
    pub(crate) functions: u64,
}

impl Tallies {
    /// Nothing was counted.
    pub(crate) fn none() -> Self
        ensures { result ≡ none_counted }
    {
        Tallies {
            operators: 0,
            parameters: 0,
            arguments: 0,
            variables: 0,
            arrays: 0,
            functions: 0,
        }
    }

    /// The tallies after these counts.
    pub(crate) fn after(self, counts: &[Count]) -> Self
        requires within { is_over self ≡ false }
        requires few { length counts.now ≤ 3 }
        ensures { result ≡ all_counted_on self counts.now }
    {
        let mut tallies = self;
        for count in counts {
            tallies.count(*count);
        }
        tallies
    }

    fn count(&mut self, count: Count)
        requires { IsBelow 2048 self.old }
        ensures { self.new ≡ counted_on self.old count }
    {
        match count {
            Count::Anew(counted) => match counted {
                Counted::Operators => self.operators = 0,
                Counted::Parameters => self.parameters = 0,
                Counted::Arguments => self.arguments = 0,
                Counted::Variables => self.variables = 0,
                Counted::Arrays => self.arrays = 0,
                Counted::Functions => self.functions = 0,
            },
            Count::OneMore(counted) => match counted {
                Counted::Operators => self.operators += 1,
                Counted::Parameters => self.parameters += 1,
                Counted::Arguments => self.arguments += 1,
                Counted::Variables => self.variables += 1,
                Counted::Arrays => self.arrays += 1,
                Counted::Functions => self.functions += 1,
            },
        }
    }

    /// Whether a limit is passed.
    pub(crate) fn is_over(&self) -> bool
        ensures { result ≡ is_over self.now }
    {
        self.operators > 256
            || self.parameters > 16
            || self.arguments > 16
            || self.variables > 256
            || self.arrays > 1024
            || self.functions > 1024
    }
}
