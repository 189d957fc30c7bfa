//! Expressions and functions.
ghost use Rattle.std.specs.Prelude.{◌≡◌, ◌≤◌, true, false, IfOk, ◌∷◌, string_bytes};
ghost use Rattle.sf_refusal.specs.declared.spot.Spot as text_spots;
ghost use Rattle.sf_expr.specs.Expressions.{Expression, unit_literal, truth_literal, int_literal, text_literal, literal};
ghost use Rattle.sf_expr.specs.Expressions as expression_trees;
ghost use Rattle.sf_lex.specs.Tokens.{token_of, name_bytes};
ghost use Rattle.sf_term.specs.Arena.{HoldsExpression, program_expression};
ghost use Rattle.sf_term.specs.Building.{BuildsExpression, NoNames};
ghost use Rattle.sf_text.specs.Parsing.Answers.{ahead, StopsReading, ReadsAs, ReadsExpression, ReadsForm, ReadsMapping, ReadsFunction, counts_of};
ghost use Rattle.sf_grammar.specs.Placing.{PatternPlaced, ExpressionPlaced, FunctionPlaced};
ghost use Rattle.sf_grammar.specs.Spelling.{takes_brackets, stands_between, maps_in_brackets};
ghost use Rattle.sf_text.specs.Parsing.Consuming.{spots_ahead, BehindOne, Consumes, StandsOn, ReadStands, Parted, linked_node, HasOperandsSo};
ghost use Rattle.sf_grammar.specs.Reading.{begins_expression, too_deep, parse_link, linked, parse_linked, behind_close, bracketed_from, parse_none, parse_prefixed, parse_one_in_brackets, parse_two_in_brackets, parse_conditional, parse_mapping, parse_let, parse_one_and_function, parse_two_and_function, parse_called, parse_worded_expression, expression_read, parse_expression_form, parse_expression, parse_function};

use crate::parts::cursor::{Cursor, First};
use crate::parts::mark::{Mark, refused};
use crate::parts::reader::Reader;
use crate::parts::stop::Stop;
use sf_expr::{Constant, ExprId, ExprNode, Folding, FunctionId, Mapping, Operator, Pat, Unary};
use sf_grammar::{ExpressionHead, Link, Version, expression_head, link_of};
use sf_lex::{Keyword, Name, Symbol, Token};
use sf_refusal::{Rule, Spot};
use sf_term::{BuildRefusal, Program};

fn begins_expression(token: &Token) -> bool
    ensures { result ≡ begins_expression (token_of token.now) }
{
    match token {
        Token::Name(_) | Token::Number(_) | Token::Text(_) => true,
        Token::Keyword(keyword) => expression_head(*keyword).is_some(),
        Token::Symbol(symbol) => *symbol == Symbol::Open,
    }
}

/// Adds the one expression that two make.
fn add_linked(
    program: &mut Program,
    link: Link,
    first: ExprId,
    second: ExprId,
    spot: Spot,
) -> Result<ExprId, BuildRefusal>
    requires first_held { HoldsExpression program.old first }
    requires second_held { HoldsExpression program.old second }
    ensures { let whole = linked link (program_expression program.old first) (program_expression program.old second) in
        BuildsExpression program.old program.new result (linked_node link first second) whole spot NoNames }
{
    match link {
        Link::Pair => program.pair(first, second, spot),
        Link::Operation(operator) => program.operation(first, operator, second, spot),
    }
}

impl<'a> Cursor<'a> {
    /// An expression would be 65 deep here.
    fn expression_too_deep(&self) -> Stop
        ensures { StopsReading {A = Expression} result (too_deep begins_expression (ahead self.now)) }
    {
        match self.tokens {
            [first, ..] if begins_expression(&first.token) => self.stop(Rule::TooDeep),
            _ => self.stop(Rule::Unexpected),
        }
    }

    /// What stands between two expressions.
    fn link(&mut self) -> Result<Link, Stop>
        ensures reads { ReadsAs (λ l. l) result self.new (parse_link (ahead self.old)) }
        ensures behind { IfOk result (λ l. BehindOne (spots_ahead self.old) (spots_ahead self.new)) }
    {
        if let [first, rest @ ..] = self.tokens {
            if let Some(link) = link_of(&first.token) {
                self.tokens = rest;
                return Ok(link);
            }
        }
        Err(self.stop(Rule::Unexpected))
    }
}

impl<'a> Reader<'a> {
    /// A name, which was its first token.
    fn variable(&mut self, start: Mark, name: Name<'a>) -> Result<ExprId, Stop>
        ensures reads { ReadsForm self.old self.new start result (expression_read (counts_of self.old.program) (expression_trees.variable (name_bytes name.entry))) }
        ensures placed { (version : Version) → ReadStands start (ExpressionPlaced version self.new.program) result self.old.cursor self.new.cursor }
    {
        let name = String::from_str(self.cursor.alloc, name.as_str())?;
        start.built(self.program.name(name, start.spot))
    }

    /// A number, which was its first token.
    fn number(&mut self, start: Mark, number: i64) -> Result<ExprId, Stop>
        ensures reads { ReadsForm self.old self.new start result (expression_read (counts_of self.old.program) (literal (int_literal number))) }
        ensures placed { (version : Version) → ReadStands start (ExpressionPlaced version self.new.program) result self.old.cursor self.new.cursor }
    {
        start.built(self.program.int(number, start.spot))
    }

    /// True or false, which was its first token.
    fn truth(&mut self, start: Mark, truth: bool) -> Result<ExprId, Stop>
        ensures reads { ReadsForm self.old self.new start result (expression_read (counts_of self.old.program) (literal (truth_literal truth))) }
        ensures placed { (version : Version) → ReadStands start (ExpressionPlaced version self.new.program) result self.old.cursor self.new.cursor }
    {
        let node = ExprNode::Truth(truth);
        start.built(self.program.add_expression(node, start.spot))
    }

    /// A text, which was its first token.
    fn text(&mut self, start: Mark, text: &String) -> Result<ExprId, Stop>
        ensures reads { ReadsForm self.old self.new start result (expression_read (counts_of self.old.program) (literal (text_literal (string_bytes text.now)))) }
        ensures placed { (version : Version) → ReadStands start (ExpressionPlaced version self.new.program) result self.old.cursor self.new.cursor }
    {
        let text = String::from_str(self.cursor.alloc, text.as_str())?;
        let constant = Constant::text(self.cursor.alloc, text)?;
        start.built(self.program.constant(constant, start.spot))
    }

    /// The only value of its type, whose closing bracket was its last token.
    fn unit(&mut self, start: Mark) -> Result<ExprId, Stop>
        ensures reads { ReadsForm self.old self.new start result (expression_read (counts_of self.old.program) (literal unit_literal)) }
        ensures placed { (version : Version) (closing : text_spots.Spot) → IfOk result (λ id. Consumes (ExpressionPlaced version self.new.program id) (start.spot ∷ closing ∷ spots_ahead self.old.cursor) (spots_ahead self.new.cursor)) }
    {
        start.built(self.program.add_expression(ExprNode::Unit, start.spot))
    }

    /// No event, behind its word.
    #[tactic(auto, unfolding(sf_grammar::specs::Reading::parse_none))]
    fn no_event(&mut self, version: Version, start: Mark, left: u32) -> Result<ExprId, Stop>
        ensures reads { ReadsForm self.old self.new start result (parse_none left version (counts_of self.old.program)) }
        ensures placed { ReadStands start (ExpressionPlaced version self.new.program) result self.old.cursor self.new.cursor }
    {
        let payload = self.cursor.type_within(version, left)?;
        let constant = Constant::no_event(payload);
        start.built(self.program.constant(constant, start.spot))
    }

    /// An expression of so much depth at most, 64 or less.
    #[cycle(expression)]
    #[tactic(auto, using(crate::proofs::Parsing::Deeper::expression_at_more, crate::proofs::Parsing::Deeper::expression_at_zero))]
    pub fn expression(&mut self, version: Version, left: u32) -> Result<ExprId, Stop>
        requires shallow { left ≤ 64 }
        ensures reads { ReadsExpression self.old self.new result (parse_expression left version (counts_of self.old.program) (ahead self.old.cursor)) }
        ensures placed { StandsOn (ExpressionPlaced version self.new.program) result self.old.cursor self.new.cursor }
    {
        if left == 0 {
            return Err(self.cursor.expression_too_deep());
        }
        self.expression_form(version, left - 1)
    }

    #[cycle(expression)]
    fn expression_form(&mut self, version: Version, left: u32) -> Result<ExprId, Stop>
        requires shallow { left ≤ 63 }
        ensures reads { ReadsExpression self.old self.new result (parse_expression_form left version (parse_expression left version) (counts_of self.old.program) (ahead self.old.cursor)) }
        ensures placed { StandsOn (ExpressionPlaced version self.new.program) result self.old.cursor self.new.cursor }
    {
        let First { token, start } = self.cursor.first()?;
        match token {
            Token::Name(name) => self.variable(start, *name),
            Token::Number(value) => self.number(start, *value),
            Token::Text(value) => self.text(start, value),
            Token::Keyword(keyword) => match expression_head(*keyword) {
                Some(head) => self.worded(version, start, head, left),
                None => Err(Stop::At(Rule::Unexpected, start.ahead)),
            },
            Token::Symbol(Symbol::Open) => self.bracketed(version, start, left),
            Token::Symbol(_) => Err(Stop::At(Rule::Unexpected, start.ahead)),
        }
    }

    /// An expression behind its word.
    #[cycle(expression)]
    fn worded(
        &mut self,
        version: Version,
        start: Mark,
        head: ExpressionHead,
        left: u32,
    ) -> Result<ExprId, Stop>
        requires shallow { left ≤ 63 }
        requires stands { HasOperandsSo head }
        ensures reads { ReadsForm self.old self.new start result (parse_worded_expression left version (parse_expression left version) (counts_of self.old.program) (Some head)) }
        ensures placed { ReadStands start (ExpressionPlaced version self.new.program) result self.old.cursor self.new.cursor }
    {
        match head {
            ExpressionHead::Truth(value) => self.truth(start, value),
            ExpressionHead::NoEvent => self.no_event(version, start, left),
            ExpressionHead::Prefixed(operator) => self.prefixed(version, start, operator, left),
            ExpressionHead::OneInBrackets(operator) => self.one_in_brackets(
                version, start, operator, left,
            ),
            ExpressionHead::TwoInBrackets(operator) => self.two_in_brackets(
                version, start, operator, left,
            ),
            ExpressionHead::Conditional => self.conditional(version, start, left),
            ExpressionHead::Let => self.let_in(version, start, left),
            ExpressionHead::OneAndFunction(mapping) => self.one_and_function(
                version, start, mapping, left,
            ),
            ExpressionHead::TwoAndFunction(folding) => self.two_and_function(
                version, start, folding, left,
            ),
            ExpressionHead::Called => self.called(version, start, left),
        }
    }

    /// What begins with an opening bracket, behind it.
    #[cycle(expression)]
    fn bracketed(&mut self, version: Version, start: Mark, left: u32) -> Result<ExprId, Stop>
        requires shallow { left ≤ 63 }
        ensures reads { ReadsForm self.old self.new start result (bracketed_from (parse_expression left version) (counts_of self.old.program) (behind_close (ahead self.old.cursor))) }
        ensures placed { ReadStands start (ExpressionPlaced version self.new.program) result self.old.cursor self.new.cursor }
    {
        match self.cursor.behind_close() {
            Some(behind) => {
                self.cursor = behind;
                self.unit(start)
            }
            None => self.linked(version, start, left),
        }
    }

    /// Two expressions in brackets, behind the opening one.
    #[cycle(expression)]
    #[tactic(auto, unfolding(sf_grammar::specs::Reading::parse_linked))]
    fn linked(&mut self, version: Version, start: Mark, left: u32) -> Result<ExprId, Stop>
        requires shallow { left ≤ 63 }
        ensures reads { ReadsForm self.old self.new start result (parse_linked (parse_expression left version) (counts_of self.old.program)) }
        ensures placed { ReadStands start (ExpressionPlaced version self.new.program) result self.old.cursor self.new.cursor }
    {
        let one = self.expression(version, left)?;
        let link = self.cursor.link()?;
        let two = self.expression(version, left)?;
        self.cursor.symbol(Symbol::Close)?;
        start.built(add_linked(&mut self.program, link, one, two, start.spot))
    }

    /// An operator on one expression, behind its word.
    #[cycle(expression)]
    #[tactic(auto, unfolding(sf_grammar::specs::Reading::parse_prefixed))]
    fn prefixed(
        &mut self,
        version: Version,
        start: Mark,
        operator: Unary,
        left: u32,
    ) -> Result<ExprId, Stop>
        requires shallow { left ≤ 63 }
        requires stands { takes_brackets operator ≡ false }
        ensures reads { ReadsForm self.old self.new start result (parse_prefixed (parse_expression left version) (counts_of self.old.program) operator) }
        ensures placed { ReadStands start (ExpressionPlaced version self.new.program) result self.old.cursor self.new.cursor }
    {
        let part = self.expression(version, left)?;
        start.built(self.program.applied(operator, part, start.spot))
    }

    /// An operator on one expression in brackets, behind its word.
    #[cycle(expression)]
    #[tactic(auto, unfolding(sf_grammar::specs::Reading::parse_one_in_brackets))]
    fn one_in_brackets(
        &mut self,
        version: Version,
        start: Mark,
        operator: Unary,
        left: u32,
    ) -> Result<ExprId, Stop>
        requires shallow { left ≤ 63 }
        requires stands { takes_brackets operator ≡ true }
        ensures reads { ReadsForm self.old self.new start result (parse_one_in_brackets (parse_expression left version) (counts_of self.old.program) operator) }
        ensures placed { ReadStands start (ExpressionPlaced version self.new.program) result self.old.cursor self.new.cursor }
    {
        self.cursor.symbol(Symbol::Open)?;
        let part = self.expression(version, left)?;
        self.cursor.symbol(Symbol::Close)?;
        start.built(self.program.applied(operator, part, start.spot))
    }

    /// An operator on two expressions in brackets, behind its word.
    #[cycle(expression)]
    #[tactic(auto, unfolding(sf_grammar::specs::Reading::parse_two_in_brackets))]
    fn two_in_brackets(
        &mut self,
        version: Version,
        start: Mark,
        operator: Operator,
        left: u32,
    ) -> Result<ExprId, Stop>
        requires shallow { left ≤ 63 }
        requires stands { stands_between operator ≡ false }
        ensures reads { ReadsForm self.old self.new start result (parse_two_in_brackets (parse_expression left version) (counts_of self.old.program) operator) }
        ensures placed { ReadStands start (ExpressionPlaced version self.new.program) result self.old.cursor self.new.cursor }
    {
        self.cursor.symbol(Symbol::Open)?;
        let one = self.expression(version, left)?;
        self.cursor.symbol(Symbol::Comma)?;
        let two = self.expression(version, left)?;
        self.cursor.symbol(Symbol::Close)?;
        start.built(self.program.operation(one, operator, two, start.spot))
    }

    /// One of two expressions by a condition, behind its word.
    #[cycle(expression)]
    #[tactic(auto, unfolding(sf_grammar::specs::Reading::parse_conditional))]
    fn conditional(&mut self, version: Version, start: Mark, left: u32) -> Result<ExprId, Stop>
        requires shallow { left ≤ 63 }
        ensures reads { ReadsForm self.old self.new start result (parse_conditional (parse_expression left version) (counts_of self.old.program)) }
        ensures placed { ReadStands start (ExpressionPlaced version self.new.program) result self.old.cursor self.new.cursor }
    {
        let condition = self.expression(version, left)?;
        self.cursor.keyword(Keyword::Then)?;
        let one = self.expression(version, left)?;
        self.cursor.keyword(Keyword::Else)?;
        let two = self.expression(version, left)?;
        start.built(self.program.conditional(condition, one, two, start.spot))
    }

    /// An expression with names for a value, behind its word.
    #[cycle(expression)]
    #[tactic(auto, unfolding(sf_grammar::specs::Reading::parse_let))]
    fn let_in(&mut self, version: Version, start: Mark, left: u32) -> Result<ExprId, Stop>
        requires shallow { left ≤ 63 }
        ensures reads { ReadsForm self.old self.new start result (parse_let left (parse_expression left version) (counts_of self.old.program)) }
        ensures placed { ReadStands start (ExpressionPlaced version self.new.program) result self.old.cursor self.new.cursor }
    {
        let pattern = self.cursor.pattern(left)?;
        self.cursor.symbol(Symbol::Equals)?;
        let value = self.expression(version, left)?;
        self.cursor.keyword(Keyword::In)?;
        let body = self.expression(version, left)?;
        let added = self
            .program
            .mapped(value, Mapping::Let, pattern, body, start.spot);
        start.built(added)
    }

    /// A value and a function in brackets, behind their word.
    #[cycle(expression)]
    #[tactic(auto, unfolding(sf_grammar::specs::Reading::parse_one_and_function))]
    fn one_and_function(
        &mut self,
        version: Version,
        start: Mark,
        mapping: Mapping,
        left: u32,
    ) -> Result<ExprId, Stop>
        requires shallow { left ≤ 63 }
        requires stands { maps_in_brackets mapping ≡ true }
        ensures reads { ReadsForm self.old self.new start result (parse_one_and_function left (parse_expression left version) (counts_of self.old.program) mapping) }
        ensures placed { ReadStands start (ExpressionPlaced version self.new.program) result self.old.cursor self.new.cursor }
    {
        self.cursor.symbol(Symbol::Open)?;
        let value = self.expression(version, left)?;
        self.cursor.symbol(Symbol::Comma)?;
        let (pattern, body) = self.mapping_parts(version, left)?;
        self.cursor.symbol(Symbol::Close)?;
        let added = self
            .program
            .mapped(value, mapping, pattern, body, start.spot);
        start.built(added)
    }

    /// Two values and a function in brackets, behind their word.
    #[cycle(expression)]
    #[tactic(auto, unfolding(sf_grammar::specs::Reading::parse_two_and_function))]
    fn two_and_function(
        &mut self,
        version: Version,
        start: Mark,
        folding: Folding,
        left: u32,
    ) -> Result<ExprId, Stop>
        requires shallow { left ≤ 63 }
        ensures reads { ReadsForm self.old self.new start result (parse_two_and_function left (parse_expression left version) (counts_of self.old.program) folding) }
        ensures placed { ReadStands start (ExpressionPlaced version self.new.program) result self.old.cursor self.new.cursor }
    {
        self.cursor.symbol(Symbol::Open)?;
        let one = self.expression(version, left)?;
        self.cursor.symbol(Symbol::Comma)?;
        let two = self.expression(version, left)?;
        self.cursor.symbol(Symbol::Comma)?;
        let (pattern, body) = self.mapping_parts(version, left)?;
        self.cursor.symbol(Symbol::Close)?;
        let added = self
            .program
            .folded(one, folding, two, pattern, body, start.spot);
        start.built(added)
    }

    /// A call of a stored function, behind its word.
    #[cycle(expression)]
    #[tactic(auto, unfolding(sf_grammar::specs::Reading::parse_called))]
    fn called(&mut self, version: Version, start: Mark, left: u32) -> Result<ExprId, Stop>
        requires shallow { left ≤ 63 }
        ensures reads { ReadsForm self.old self.new start result (parse_called (parse_expression left version) (counts_of self.old.program)) }
        ensures placed { ReadStands start (ExpressionPlaced version self.new.program) result self.old.cursor self.new.cursor }
    {
        let function = self.cursor.name()?;
        self.cursor.symbol(Symbol::Open)?;
        let part = self.expression(version, left)?;
        self.cursor.symbol(Symbol::Close)?;
        let name = String::from_str(self.cursor.alloc, function.name.as_str())?;
        start.built(self.program.called(name, function.spot, part, start.spot))
    }

    /// The pattern and the expression of a function, of so much depth at most.
    #[cycle(expression)]
    fn mapping_parts(&mut self, version: Version, left: u32) -> Result<(Pat, ExprId), Stop>
        requires shallow { left ≤ 63 }
        ensures reads { ReadsMapping self.old self.new result (parse_mapping left (parse_expression left version) (counts_of self.old.program) (ahead self.old.cursor)) }
        ensures placed { StandsOn (λ x. Parted (PatternPlaced x.0) (ExpressionPlaced version self.new.program x.1)) result self.old.cursor self.new.cursor }
    {
        let pattern = self.cursor.pattern(left)?;
        self.cursor.symbol(Symbol::MapsTo)?;
        let body = self.expression(version, left)?;
        Ok((pattern, body))
    }

    /// A function, whose pattern and expression are of so much depth at most, 63 or less.
    #[tactic(auto, unfolding(sf_grammar::specs::Reading::parse_function))]
    pub fn function(&mut self, version: Version, left: u32) -> Result<FunctionId, Stop>
        requires shallow { left ≤ 63 }
        ensures reads { ReadsFunction self.old self.new result (parse_function left version (counts_of self.old.program) (ahead self.old.cursor)) }
        ensures placed { StandsOn (FunctionPlaced version self.new.program) result self.old.cursor self.new.cursor }
    {
        let ahead = self.cursor.tokens.len();
        let (pattern, body) = self.mapping_parts(version, left)?;
        match self.program.function(pattern, body) {
            Ok(id) => Ok(id),
            Err(refusal) => Err(refused(refusal, ahead)),
        }
    }
}
