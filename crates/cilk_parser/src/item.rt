ghost use Rattle.cilk_parser.specs.Spots.{is_array_start, is_keyword, is_sign};
ghost use Rattle.cilk_parser.specs.Phrases.{HasParameter, Lacks, LacksParameter, Parses, array_name_phrase, array_phrase, arrays_phrase, function_kind_phrase, function_phrase, item_phrase, parameters_phrase, result_phrase};
ghost use Rattle.cilk_parser.specs.Starts.{starts_item};
ghost use Rattle.std.specs.Prelude.{◌≡◌, ◌≢◌, [], false, IsTrue, MatchResult};

use crate::parser::Parser;
use crate::refusal::ParseRefusal;
use crate::starts::ItemStart;
use cilk_tree::{Count, Counted, Function, Keyword, Name, Program, Shared, Sign};
use sqlite_items::Items;

/// What the first token of a function counts as.
const FUNCTION: [Count; 3] = [
    Count::OneMore(Counted::Functions),
    Count::Anew(Counted::Parameters),
    Count::Anew(Counted::Variables),
];

impl<'a> Parser<'a> {
    /// Reads an item, and adds it to the program.
    pub(crate) fn item(&mut self, program: &mut Program) -> Result<(), ParseRefusal>
        requires { self.old.left ≢ [] }
        ensures { MatchResult result (λ _. Parses item_phrase self.old self.new (program.old, program.new)) (λ refusal. Lacks item_phrase self.old refusal) }
    {
        if self.is_array_start() {
            return self.arrays(&mut program.shared);
        }
        let function = self.function()?;
        program.functions.push(function)?;
        Ok(())
    }

    /// Whether `int` stands first, and no name with a parenthesis behind it.
    fn is_array_start(&self) -> bool
        ensures { result ≡ is_array_start self.now.left }
    {
        self.is_at_keyword(Keyword::Int) && !self.is_before_call()
    }

    /// Reads shared arrays, and adds them.
    fn arrays(&mut self, shared: &mut Items<Shared>) -> Result<(), ParseRefusal>
        requires { IsTrue (is_array_start self.old.left) }
        ensures { MatchResult result (λ _. Parses arrays_phrase self.old self.new (shared.old, shared.new)) (λ refusal. Lacks arrays_phrase self.old refusal) }
    {
        let mut name = self.first_array_name()?;
        loop {
            let array = self.array(name)?;
            shared.push(array)?;
            if !self.is_at(Sign::Comma) {
                return self.sign(Sign::Semicolon, 0);
            }
            self.pass(0, &[])?;
            name = self.name(0, &[Count::OneMore(Counted::Arrays)])?;
        }
    }

    /// Reads `int` and the name of an array. A name counts as that of an array where a bracket follows.
    fn first_array_name(&mut self) -> Result<Name, ParseRefusal>
        requires { IsTrue (is_array_start self.old.left) }
        ensures { MatchResult result (λ name. Parses array_name_phrase self.old self.new name) (λ refusal. Lacks array_name_phrase self.old refusal) }
    {
        self.pass(0, &[])?;
        if self.is_name_before(Sign::OpenBracket) {
            return self.name(0, &[Count::OneMore(Counted::Arrays)]);
        }
        self.name(0, &[])?;
        Err(self.unexpected())
    }

    /// Reads the number of words of an array in its brackets.
    fn array(&mut self, name: Name) -> Result<Shared, ParseRefusal>
        ensures { MatchResult result (λ array. Parses (array_phrase name) self.old self.new array) (λ refusal. Lacks (array_phrase name) self.old refusal) }
    {
        self.sign(Sign::OpenBracket, 0)?;
        let words = self.array_size()?;
        self.sign(Sign::CloseBracket, 0)?;
        Ok(Shared { name, words })
    }

    /// Reads a function.
    fn function(&mut self) -> Result<Function, ParseRefusal>
        requires some { self.old.left ≢ [] }
        requires no_array { is_array_start self.old.left ≡ false }
        ensures { MatchResult result (λ function. Parses function_phrase self.old self.new function) (λ refusal. Lacks function_phrase self.old refusal) }
    {
        let (cilk, gives) = self.function_kind()?;
        let name = self.name(0, &[])?;
        self.sign(Sign::OpenParen, 0)?;
        let params = self.parameters()?;
        self.sign(Sign::OpenBrace, 0)?;
        let body = self.inners(1, 0)?;
        Ok(Function {
            cilk,
            gives,
            name,
            params,
            body,
        })
    }

    /// Reads what stands before the name of a function: whether it is a `cilk` procedure, and whether it gives a value.
    fn function_kind(&mut self) -> Result<(bool, bool), ParseRefusal>
        requires some { self.old.left ≢ [] }
        requires no_array { is_array_start self.old.left ≡ false }
        ensures { MatchResult result (λ kind. Parses function_kind_phrase self.old self.new (kind.0, kind.1)) (λ refusal. Lacks function_phrase self.old refusal) }
    {
        match self.item_start() {
            ItemStart::Cilk => {
                self.pass(0, &FUNCTION)?;
                Ok((true, self.gives()?))
            }
            ItemStart::Void => {
                self.pass(0, &FUNCTION)?;
                Ok((false, false))
            }
            ItemStart::Int => {
                self.pass(0, &FUNCTION)?;
                Ok((false, true))
            }
            ItemStart::Other => Err(self.unexpected()),
        }
    }

    /// Reads `int` or `void`, and says whether it is `int`.
    fn gives(&mut self) -> Result<bool, ParseRefusal>
        ensures { MatchResult result (λ gives. Parses result_phrase self.old self.new gives) (λ refusal. Lacks result_phrase self.old refusal) }
    {
        let gives = self.is_at_keyword(Keyword::Int);
        if !gives && !self.is_at_keyword(Keyword::Void) {
            return Err(self.unexpected());
        }
        self.pass(0, &[])?;
        Ok(gives)
    }

    /// Reads parameters and the parenthesis behind them.
    fn parameters(&mut self) -> Result<Items<Name>, ParseRefusal>
        ensures { MatchResult result (λ names. Parses parameters_phrase self.old self.new names) (λ refusal. Lacks parameters_phrase self.old refusal) }
    {
        if self.is_at_keyword(Keyword::Void) {
            self.pass(0, &[])?;
            self.sign(Sign::CloseParen, 0)?;
            return Ok(Items::new(self.alloc()));
        }
        if self.is_at(Sign::CloseParen) {
            self.pass(0, &[])?;
            return Ok(Items::new(self.alloc()));
        }
        self.parameter_names()
    }

    /// Reads the names of one parameter or more, and the parenthesis behind them.
    fn parameter_names(&mut self) -> Result<Items<Name>, ParseRefusal>
        requires no_void { is_keyword Keyword.Void self.old.left ≡ false }
        requires no_close { is_sign Sign.CloseParen self.old.left ≡ false }
        ensures { MatchResult result (λ names. Parses parameters_phrase self.old self.new names) (λ refusal. Lacks parameters_phrase self.old refusal) }
    {
        let mut names = Items::new(self.alloc());
        names.push(self.parameter()?)?;
        while self.is_at(Sign::Comma) {
            self.pass(0, &[])?;
            names.push(self.parameter()?)?;
        }
        self.sign(Sign::CloseParen, 0)?;
        Ok(names)
    }

    /// Reads `int` and the name of a parameter.
    fn parameter(&mut self) -> Result<Name, ParseRefusal>
        ensures { MatchResult result (λ name. HasParameter self.old self.new name) (λ refusal. LacksParameter self.old refusal) }
    {
        if !self.is_at_keyword(Keyword::Int) {
            return Err(self.unexpected());
        }
        self.pass(0, &[Count::OneMore(Counted::Parameters)])?;
        self.name(0, &[Count::OneMore(Counted::Variables)])
    }

    /// How the item begins that stands first.
    fn item_start(&self) -> ItemStart
        ensures { result ≡ starts_item self.now.left }
    {
        self.first()
            .map_or(ItemStart::Other, |token| ItemStart::of(token))
    }
}
