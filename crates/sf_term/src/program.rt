//! Programs: terms and templates, in an arena.
ghost use Rattle.std.specs.Prelude.{◌≡◌, ◌<◌, ◌≤◌, ◌^◌, ◌+◌, ◌-◌, max, min, IfOk, IfErr, OnOk, [], length, string_bytes, All};
ghost use Rattle.sf_lex.specs.Words.{IsName};
ghost use Rattle.sf_expr.specs.Expressions.{variable, literal, int_literal, paired};
ghost use Rattle.sf_expr.specs.Expressions;
ghost use Rattle.sf_expr.specs.Expressions.{pattern_depth};
ghost use Rattle.sf_expr.specs.Patterns.{pattern_of};
ghost use Rattle.sf_expr.specs.Arena.{next_name, next_constant, next_pattern, AddsName, AddsConstant, AddsPattern, node_expression, HoldsParts};
ghost use Rattle.sf_expr.specs.declared.exprs.ExprNode.TheVariants as expressions;
ghost use Rattle.sf_term.specs.Headers.{bodies_end};
ghost use Rattle.sf_arena.specs.Arenas.{entries_of};
ghost use Rattle.sf_term.specs.Entries.{AreTerms, collections_in};
ghost use Rattle.sf_term.specs.Names.{HasNames, AreNamed};
ghost use Rattle.sf_term.specs.declared.node.Node.TheVariants as terms;
ghost use Rattle.sf_term.specs.Trees.{named_term, primitive, reference, arguments_depth, collection_depth, term_depth};
ghost use Rattle.sf_term.specs.Trees;

use crate::argument::{StoredArguments, clone_lists};
use crate::collection::{CollExpr, CollectionId, clone_collections};
use crate::form::{Bare, Naming, Observation, Switching};
use crate::names::{are_all_named, are_both_named, has_names};
use crate::node::{
    Argument, ArgumentsId, Continuation, Editing, Node, Primitive, Releasing, Switch, TermId,
};
use crate::refusal::{BuildRefusal, room};
use crate::template::{Parameter, Template, clone_all};
use sf_arena::{Arena, Entry};
use sf_expr::{
    Constant, ConstantId, ExprId, ExprNode, Exprs, Folded, Folding, FunctionId, Mapped, Mapping,
    NameId, Operator, Pat, PatternId, Spot, Unary,
};
use sf_lex::is_name;
use sf_value::Ty;
use std::alloc::{AllocError, Global};
use std::rc::Rc;

/// Terms, with their expressions and functions, and templates: at most 100,000 terms and 100,000 expressions, of which
/// at most 64 stand one inside another.
pub struct Program {
    expressions: Exprs,
    terms: Arena<Node>,
    arguments: Vec<StoredArguments>,
    collections: Vec<Rc<CollExpr>>,
    templates: Vec<Template>,
    ghost arena: { AreTerms (record { expressions = expressions; lists = record { arguments = arguments.items; collections = collections_in collections.items } }) (entries_of terms) },
    ghost bodies: { bodies_end templates.items ≤ length (entries_of terms) },
}

impl Drop for Program {
    fn drop(self) {
        let Program {
            expressions,
            terms,
            arguments,
            collections,
            templates,
        } = self;
        drop(expressions);
        drop(terms);
        drop(arguments);
        drop(collections);
        drop(templates);
    }
}

impl Program {
    ghost use Rattle.sf_term.specs.Arena.{term_count, expression_count, HoldsTerm, HoldsExpression};
    ghost use Rattle.sf_term.specs.Arena.{tree, program_expression, program_entry, term_node_at, term_spot_at, term_of, term_number};
    ghost use Rattle.sf_term.specs.Arena.{program_expressions, headers_of, TermPartsBelow, HoldsTermParts};
    ghost use Rattle.sf_term.specs.Arena.{HoldsArgument, HoldsArguments, HoldsCollection, argument_nodes, arguments_of, next_arguments};
    ghost use Rattle.sf_term.specs.Arena.{HoldsWhole, HoldsMembers, collection_node, collection_of, collection_tree, AddsCollection, AddsUsed};
    ghost use Rattle.sf_term.specs.Arena.{AddsProgramFunction, AddsTemplate, IsSameProgram, IsProgramCopy};
    ghost use Rattle.sf_term.specs.Building.{NoNames, RefusesDue, IsBuilt, BuildsTerm, BuildsExpression, HasPattern, PutsBoth};

    /// No term, no expression and no template.
    #[tactic(auto, unfolding(crate::specs::Arena::term_count, crate::specs::Arena::expression_count, crate::specs::Arena::headers_of))]
    pub fn new(alloc: Global) -> Program
        ensures terms { term_count result ≡ 0 }
        ensures expressions { expression_count result ≡ 0 }
        ensures templates { headers_of result ≡ [] }
    {
        Program {
            expressions: Exprs::new(alloc),
            terms: Arena::new(alloc),
            arguments: Vec::new(alloc),
            collections: Vec::new(alloc),
            templates: Vec::new(alloc),
        }
    }

    // The node at an id, with its depth and its place.
    #[tactic(auto, unfolding(crate::specs::Arena::program_entry, crate::specs::Arena::HoldsTerm))]
    fn entry(&self, id: TermId) -> Entry<Node>
        requires { HoldsTerm self.now id }
        ensures { result ≡ program_entry self.now id }
    {
        match self.terms.get(id.0 as usize) {
            Some(entry) => *entry,
            None => unreachable!(),
        }
    }

    /// How many terms and expressions stand one inside another in the term at an id.
    #[tactic(auto, using(crate::proofs::Extended::tree_shallow), unfolding(crate::specs::Arena::program_entry, crate::specs::Arena::tree))]
    pub fn depth(&self, id: TermId) -> u32
        requires { HoldsTerm self.now id }
        ensures value { result ≡ term_depth (tree self.now id) }
        ensures bound { result ≤ 64 }
    {
        self.entry(id).depth
    }

    #[tactic(auto, unfolding(crate::specs::Arena::program_expressions, crate::specs::Arena::program_expression, crate::specs::Arena::function_pattern_at, crate::specs::Arena::function_body_at, crate::specs::Arena::placed_pattern), using(crate::proofs::Extended::named_depth))]
    fn depth_with(&self, node: Node) -> u32
        requires { HoldsTermParts self.now node }
        ensures { result ≡ min (term_depth (term_of self.now node)) (2 ^ 32 - 1) }
    {
        match node {
            Node::Primitive(Primitive::Bare(_) | Primitive::Never(_) | Primitive::Selected(_, _)) =>
                1,
            Node::Named(_, _, _) => 1,
            Node::Primitive(Primitive::WithValue(_, value) | Primitive::Timed(_, _, value)) => {
                1 + self.expressions.depth(value)
            }
            Node::Primitive(Primitive::Arrow(function)) => {
                1 + self.expressions.function_depth(function)
            }
            Node::Primitive(Primitive::Accumulated(_, value, function)) => {
                let depth = self.expressions.function_depth(function);
                1 + self.expressions.depth(value).max(depth)
            }
            Node::Joined(_, first, second) => 1 + self.depth(first).max(self.depth(second)),
            Node::Sided(_, part) => 1 + self.depth(part),
            Node::Headed(_, value, part) => {
                1 + self.expressions.depth(value).max(self.depth(part))
            }
            Node::Transformed(function, part) => {
                let depth = self.expressions.function_depth(function);
                1 + depth.max(self.depth(part))
            }
            Node::Switching(node) => {
                let terms = self.depth(node.source).max(self.depth(node.body));
                1 + terms.max(self.expressions.pattern_depth(node.pattern))
            }
            Node::Continuation(node) => {
                let watched = self.depth(node.source).max(self.depth(node.observer));
                let terms = watched.max(self.depth(node.body));
                1 + terms.max(self.expressions.pattern_depth(node.pattern))
            }
            Node::Call(_, arguments) => {
                let depth = self.depth_in(self.arguments(arguments));
                depth.saturating_add(1)
            }
            Node::Gathered(members) => self.depth_under(members).saturating_add(1),
            Node::Releasing(node) => {
                let watched = self
                    .depth_under(node.members)
                    .max(self.depth(node.observer));
                let terms = watched.max(self.depth(node.body));
                let parts = terms.max(self.expressions.pattern_depth(node.pattern));
                parts.saturating_add(1)
            }
            Node::Editing(node) => {
                let members = self.depth_under(node.members);
                let collections = members.max(self.depth_under(node.edit));
                let parts = collections.max(self.expressions.pattern_depth(node.pattern));
                parts.saturating_add(1)
            }
        }
    }

    // How many collections, terms and expressions stand one inside another in a collection; `u32::MAX` where they are more.
    #[tactic(auto, unfolding(crate::specs::Arena::program_expressions, crate::specs::Arena::program_expression, crate::specs::Arena::function_pattern_at, crate::specs::Arena::function_body_at))]
    fn depth_of(&self, collection: &CollExpr) -> u32
        requires { HoldsMembers self.now collection.now }
        ensures { result ≡ min (collection_depth (collection_of self.now collection.now)) (2 ^ 32 - 1) }
    {
        match collection {
            CollExpr::Empty(_, _, _) | CollExpr::Used(_, _, _) => 1,
            CollExpr::Added(members, key, term, _) => {
                let parts = self.expressions.depth(*key).max(self.depth(*term));
                self.depth_of(members).max(parts).saturating_add(1)
            }
            CollExpr::Dropped(members, key, _) => {
                let depth = self.depth_of(members);
                depth.max(self.expressions.depth(*key)).saturating_add(1)
            }
            CollExpr::Kept(members, function, _) => {
                let depth = self.depth_of(members);
                depth
                    .max(self.expressions.function_depth(*function))
                    .saturating_add(1)
            }
            CollExpr::Chosen(condition, first, second, _) => {
                let depth = self.depth_of(first).max(self.depth_of(second));
                depth
                    .max(self.expressions.depth(*condition))
                    .saturating_add(1)
            }
        }
    }

    // The same of the collection at an id.
    fn depth_under(&self, id: CollectionId) -> u32
        requires { HoldsWhole self.now id }
        ensures { result ≡ min (collection_depth (collection_tree self.now id)) (2 ^ 32 - 1) }
    {
        self.depth_of(self.collection(id))
    }

    // How many terms and expressions stand one inside another in arguments; `u32::MAX` where they are more.
    #[tactic(auto, unfolding(crate::specs::Arena::program_expressions, crate::specs::Arena::program_expression))]
    fn depth_in(&self, arguments: &[Argument]) -> u32
        requires { All (HoldsArgument self.now) arguments.now }
        ensures { result ≡ min (arguments_depth (arguments_of self.now arguments.now)) (2 ^ 32 - 1) }
    {
        let mut depth = 0;
        for argument in arguments {
            let part = match argument {
                Argument::Value(value) => self.expressions.depth(*value),
                Argument::Process(term) => self.depth(*term),
                Argument::Collection(members) => self.depth_under(*members),
            };
            depth = part.max(depth);
        }
        depth
    }

    /// Adds the expression of a node, whose parts are held. Refused with `TooMany` where 100,000 expressions are there,
    /// then with `TooDeep` where more than 64 would stand one inside another, and with `Memory`. A refused call changes
    /// nothing.
    pub fn add_expression(&mut self, node: ExprNode, spot: Spot) -> Result<ExprId, BuildRefusal>
        requires { HoldsParts (program_expressions self.old) node }
        ensures { BuildsExpression self.old self.new result node (node_expression (program_expressions self.old) node) spot NoNames }
    {
        match self.expressions.add(node, spot) {
            Ok(id) => Ok(id),
            Err(refusal) => Err(BuildRefusal::from(refusal)),
        }
    }

    /// Adds a number to the expressions. Refused with `TooMany` where 100,000 expressions are there, and with
    /// `Memory`. A refused call changes nothing.
    pub fn int(&mut self, n: i64, spot: Spot) -> Result<ExprId, BuildRefusal>
        ensures { BuildsExpression self.old self.new result (expressions.Int n) (literal (int_literal n)) spot NoNames }
    {
        self.add_expression(ExprNode::Int(n), spot)
    }

    /// Adds a name to the expressions. Refused with `TooMany` where 100,000 expressions are there, then with `BadName`
    /// where it is no name of the language, and with `Memory`. A refused call changes nothing.
    pub fn name(&mut self, name: String, spot: Spot) -> Result<ExprId, BuildRefusal>
        ensures { let next = next_name (program_expressions self.old) in
            BuildsExpression self.old self.new result (expressions.Name next) (variable (string_bytes name)) spot (IsName (string_bytes name)) }
    {
        let count = self.expressions.len();
        let name = self.put_name(count, 0, name)?;
        self.add_expression(ExprNode::Name(name), spot)
    }

    /// Adds a constant to the expressions. Refused with `TooMany` where 100,000 expressions are there, and with
    /// `Memory`. A refused call changes nothing.
    pub fn constant(&mut self, value: Constant, spot: Spot) -> Result<ExprId, BuildRefusal>
        ensures { let next = next_constant (program_expressions self.old) in
            BuildsExpression self.old self.new result (expressions.Constant next) (literal value) spot NoNames }
    {
        let count = self.expressions.len();
        let constant = self.put_constant(count, value)?;
        self.add_expression(ExprNode::Constant(constant), spot)
    }

    /// Adds a pair to the expressions. Refused with `TooMany` where 100,000 expressions are there, then with `TooDeep`
    /// where more than 64 would stand one inside another, and with `Memory`. A refused call changes nothing.
    pub fn pair(
        &mut self,
        first: ExprId,
        second: ExprId,
        spot: Spot,
    ) -> Result<ExprId, BuildRefusal>
        requires first_held { HoldsExpression self.old first }
        requires second_held { HoldsExpression self.old second }
        ensures { let whole = paired (program_expression self.old first) (program_expression self.old second) in
            BuildsExpression self.old self.new result (expressions.Pair first second) whole spot NoNames }
    {
        self.add_expression(ExprNode::Pair(first, second), spot)
    }

    /// Adds an operator between its operands to the expressions. Refused with `TooMany` where 100,000 expressions are
    /// there, then with `TooDeep` where more than 64 would stand one inside another, and with `Memory`. A refused call
    /// changes nothing.
    pub fn operation(
        &mut self,
        left: ExprId,
        operator: Operator,
        right: ExprId,
        spot: Spot,
    ) -> Result<ExprId, BuildRefusal>
        requires left_held { HoldsExpression self.old left }
        requires right_held { HoldsExpression self.old right }
        ensures { let whole = Expressions.operation (program_expression self.old left) operator (program_expression self.old right) in
            BuildsExpression self.old self.new result (expressions.Operation left operator right) whole spot NoNames }
    {
        self.add_expression(ExprNode::Operation(left, operator, right), spot)
    }

    /// Adds an operator on its operand to the expressions. Refused with `TooMany` where 100,000 expressions are there,
    /// then with `TooDeep` where more than 64 would stand one inside another, and with `Memory`. A refused call changes
    /// nothing.
    pub fn applied(
        &mut self,
        operator: Unary,
        part: ExprId,
        spot: Spot,
    ) -> Result<ExprId, BuildRefusal>
        requires { HoldsExpression self.old part }
        ensures { let whole = Expressions.applied operator (program_expression self.old part) in
            BuildsExpression self.old self.new result (expressions.Applied operator part) whole spot NoNames }
    {
        self.add_expression(ExprNode::Applied(operator, part), spot)
    }

    /// Adds one of two by a condition to the expressions. Refused with `TooMany` where 100,000 expressions are there, then
    /// with `TooDeep` where more than 64 would stand one inside another, and with `Memory`. A refused call changes
    /// nothing.
    pub fn conditional(
        &mut self,
        condition: ExprId,
        first: ExprId,
        second: ExprId,
        spot: Spot,
    ) -> Result<ExprId, BuildRefusal>
        requires condition_held { HoldsExpression self.old condition }
        requires first_held { HoldsExpression self.old first }
        requires second_held { HoldsExpression self.old second }
        ensures { let whole = Expressions.conditional (program_expression self.old condition) (program_expression self.old first) (program_expression self.old second) in
            BuildsExpression self.old self.new result (expressions.Conditional condition first second) whole spot NoNames }
    {
        self.add_expression(ExprNode::Conditional(condition, first, second), spot)
    }

    // Puts a name beside the expressions, for one more where `count` are there, whose parts stand `parts` one inside another.
    // Refused as that one is.
    #[tactic(auto, unfolding(crate::specs::Arena::program_expressions))]
    fn put_name(&mut self, count: usize, parts: u32, name: String) -> Result<NameId, BuildRefusal>
        ensures ok { IfOk result (λ n. AddsName (program_expressions self.old) (program_expressions self.new) n (string_bytes name)) }
        ensures refused { RefusesDue result count (parts + 1) (IsName (string_bytes name)) }
        ensures same { IsSameProgram self.old self.new }
        ensures arguments { next_arguments self.new ≡ next_arguments self.old }
    {
        room(count, parts.saturating_add(1), is_name(name.as_bytes()))?;
        match self.expressions.name(name) {
            Ok(id) => Ok(id),
            Err(_) => Err(BuildRefusal::Memory),
        }
    }

    // Puts a constant there, likewise.
    #[tactic(auto, unfolding(crate::specs::Arena::program_expressions))]
    fn put_constant(&mut self, count: usize, value: Constant) -> Result<ConstantId, BuildRefusal>
        ensures ok { IfOk result (λ n. AddsConstant (program_expressions self.old) (program_expressions self.new) n value) }
        ensures refused { RefusesDue result count 1 NoNames }
        ensures same { IsSameProgram self.old self.new }
    {
        room(count, 1, true)?;
        match self.expressions.constant(value) {
            Ok(id) => Ok(id),
            Err(_) => Err(BuildRefusal::Memory),
        }
    }

    // Puts a pattern there, which counts as one of the parts, likewise.
    #[tactic(auto, unfolding(crate::specs::Arena::program_expressions))]
    fn put_pattern(
        &mut self,
        count: usize,
        parts: u32,
        pattern: Pat,
    ) -> Result<PatternId, BuildRefusal>
        ensures ok { IfOk result (λ q. AddsPattern (program_expressions self.old) (program_expressions self.new) q pattern) }
        ensures refused { RefusesDue result count (max parts (pattern_depth (pattern_of pattern)) + 1) (HasNames (pattern_of pattern)) }
        ensures same { IsSameProgram self.old self.new }
    {
        let depth = parts.max(pattern.depth()).saturating_add(1);
        room(count, depth, has_names(&pattern))?;
        match self.expressions.pattern_in(pattern) {
            Ok(id) => Ok(id),
            Err(_) => Err(BuildRefusal::Memory),
        }
    }

    // Puts a name and a pattern there, likewise.
    #[tactic(auto, unfolding(crate::specs::Arena::program_expressions))]
    fn put_both(
        &mut self,
        count: usize,
        parts: u32,
        name: String,
        pattern: Pat,
    ) -> Result<(NameId, PatternId), BuildRefusal>
        ensures ok { IfOk result (λ ids. PutsBoth (program_expressions self.old) (program_expressions self.new) ids (string_bytes name) pattern) }
        ensures refused { RefusesDue result count (max parts (pattern_depth (pattern_of pattern)) + 1) (IsName (string_bytes name) × HasNames (pattern_of pattern)) }
        ensures same { IsSameProgram self.old self.new }
    {
        let depth = parts.max(pattern.depth()).saturating_add(1);
        room(count, depth, are_both_named(name.as_bytes(), &pattern))?;
        match self.expressions.name(name) {
            Ok(name) => match self.expressions.pattern_in(pattern) {
                Ok(pattern) => Ok((name, pattern)),
                Err(_) => Err(BuildRefusal::Memory),
            },
            Err(_) => Err(BuildRefusal::Memory),
        }
    }

    /// Adds a form on a value with a function to the expressions. Refused with `TooMany` where 100,000 expressions are
    /// there, then with `TooDeep` where more than 64 patterns or expressions would stand one inside another, then with
    /// `BadName` where a name of its pattern is no name of the language, and with `Memory`. A refused call changes
    /// nothing.
    #[tactic(auto, unfolding(crate::specs::Arena::program_expressions))]
    pub fn mapped(
        &mut self,
        part: ExprId,
        mapping: Mapping,
        pattern: Pat,
        body: ExprId,
        spot: Spot,
    ) -> Result<ExprId, BuildRefusal>
        requires part_held { HoldsExpression self.old part }
        requires body_held { HoldsExpression self.old body }
        ensures builds { let next = next_pattern (program_expressions self.old) in
            let node = expressions.Mapped (record { part = part; mapping = mapping; pattern = next; body = body }) in
            let whole = Expressions.mapped (program_expression self.old part) mapping (pattern_of pattern) (program_expression self.old body) in
            BuildsExpression self.old self.new result node whole spot (HasNames (pattern_of pattern)) }
        ensures placed { OnOk result (HasPattern self.new (next_pattern (program_expressions self.old)) pattern) }
    {
        let count = self.expressions.len();
        let parts = self
            .expressions
            .depth(part)
            .max(self.expressions.depth(body));
        let pattern = self.put_pattern(count, parts, pattern)?;
        let node = Mapped {
            part,
            mapping,
            pattern,
            body,
        };
        self.add_expression(ExprNode::Mapped(node), spot)
    }

    /// Adds a form on two values with a function to the expressions. Refused with `TooMany` where 100,000 expressions are
    /// there, then with `TooDeep` where more than 64 patterns or expressions would stand one inside another, then with
    /// `BadName` where a name of its pattern is no name of the language, and with `Memory`. A refused call changes
    /// nothing.
    #[tactic(auto, unfolding(crate::specs::Arena::program_expressions))]
    pub fn folded(
        &mut self,
        first: ExprId,
        folding: Folding,
        second: ExprId,
        pattern: Pat,
        body: ExprId,
        spot: Spot,
    ) -> Result<ExprId, BuildRefusal>
        requires first_held { HoldsExpression self.old first }
        requires second_held { HoldsExpression self.old second }
        requires body_held { HoldsExpression self.old body }
        ensures builds { let next = next_pattern (program_expressions self.old) in
            let node = expressions.Folded (record { first = first; folding = folding; second = second; pattern = next; body = body }) in
            let whole = Expressions.folded (program_expression self.old first) folding (program_expression self.old second) (pattern_of pattern) (program_expression self.old body) in
            BuildsExpression self.old self.new result node whole spot (HasNames (pattern_of pattern)) }
        ensures placed { OnOk result (HasPattern self.new (next_pattern (program_expressions self.old)) pattern) }
    {
        let count = self.expressions.len();
        let operands = self
            .expressions
            .depth(first)
            .max(self.expressions.depth(second));
        let parts = operands.max(self.expressions.depth(body));
        let pattern = self.put_pattern(count, parts, pattern)?;
        let node = Folded {
            first,
            folding,
            second,
            pattern,
            body,
        };
        self.add_expression(ExprNode::Folded(node), spot)
    }

    /// Adds a call of a stored function, whose name stands at `place`, on its argument to the expressions. Refused with
    /// `TooMany` where 100,000 expressions are there, then with `TooDeep` where more than 64 would stand one inside
    /// another, then with `BadName` where the function's name is no name of the language, and with `Memory`. A refused
    /// call changes nothing.
    #[tactic(auto, unfolding(crate::specs::Arena::program_expressions))]
    pub fn called(
        &mut self,
        function: String,
        place: Spot,
        part: ExprId,
        spot: Spot,
    ) -> Result<ExprId, BuildRefusal>
        requires { HoldsExpression self.old part }
        ensures { let next = next_name (program_expressions self.old) in
            let whole = Expressions.called (string_bytes function) (program_expression self.old part) in
            BuildsExpression self.old self.new result (expressions.Called next place part) whole spot (IsName (string_bytes function)) }
    {
        let count = self.expressions.len();
        let parts = self.expressions.depth(part);
        let name = self.put_name(count, parts, function)?;
        self.add_expression(ExprNode::Called(name, place, part), spot)
    }

    /// Adds a function, which counts as no expression. Refused with `TooDeep` where more than 64 patterns or
    /// expressions stand one inside another, then with `BadName` where a name of its pattern is no name of the
    /// language, and with `Memory`. A refused call changes nothing.
    #[tactic(auto, unfolding(crate::specs::Arena::program_expressions))]
    pub fn function(&mut self, pattern: Pat, body: ExprId) -> Result<FunctionId, BuildRefusal>
        requires { HoldsExpression self.old body }
        ensures { let whole = Expressions.function (pattern_of pattern) (program_expression self.old body) in
            IsBuilt self.old self.new result (λ f. AddsProgramFunction self.old self.new f pattern body) 0 (Expressions.function_depth whole) (HasNames (pattern_of pattern)) }
    {
        let depth = pattern.depth().max(self.expressions.depth(body));
        room(0, depth, has_names(&pattern))?;
        match self.expressions.function(pattern, body) {
            Ok(id) => Ok(id),
            Err(_) => Err(BuildRefusal::Memory),
        }
    }

    /// Adds the term of a node, whose parts are held. Refused with `TooMany` where 100,000 terms are there, then with
    /// `TooDeep` where more than 64 terms and expressions would stand one inside another, and with `Memory`. A refused
    /// call changes nothing.
    pub fn add(&mut self, node: Node, spot: Spot) -> Result<TermId, BuildRefusal>
        requires { HoldsTermParts self.old node }
        ensures { BuildsTerm self.old self.new result node (term_of self.old node) spot NoNames }
    {
        let depth = self.depth_with(node);
        match self.terms.add(node, depth, spot) {
            Ok(number) => Ok(TermId(number as u32)),
            Err(refusal) => Err(BuildRefusal::from(refusal)),
        }
    }

    /// Adds a term that gives way to another inside a pattern. Refused with `TooMany` where 100,000 terms are there, then
    /// with `TooDeep` where more than 64 terms, patterns and expressions would stand one inside another, then with
    /// `BadName` where a name of its pattern is no name of the language, and with `Memory`. A refused call changes
    /// nothing.
    pub fn switching(
        &mut self,
        form: Switching,
        source: TermId,
        pattern: Pat,
        body: TermId,
        spot: Spot,
    ) -> Result<TermId, BuildRefusal>
        requires source_held { HoldsTerm self.old source }
        requires body_held { HoldsTerm self.old body }
        ensures builds { let next = next_pattern (program_expressions self.old) in
            let node = terms.Switching (record { form = form; source = source; pattern = next; body = body }) in
            let whole = Trees.switching form (tree self.old source) (pattern_of pattern) (tree self.old body) in
            BuildsTerm self.old self.new result node whole spot (HasNames (pattern_of pattern)) }
        ensures placed { OnOk result (HasPattern self.new (next_pattern (program_expressions self.old)) pattern) }
    {
        let count = self.terms.len();
        let parts = self.depth(source).max(self.depth(body));
        let pattern = self.put_pattern(count, parts, pattern)?;
        let node = Switch {
            form,
            source,
            pattern,
            body,
        };
        self.add(Node::Switching(node), spot)
    }

    /// Adds a term that gives way to another inside a pattern, which knows it by a name, at `place`. Refused with `TooMany`
    /// where 100,000 terms are there, then with `TooDeep` where more than 64 terms, patterns and expressions would stand one
    /// inside another, then with `BadName` where the name or one of the pattern is no name of the language, and with
    /// `Memory`. A refused call changes nothing.
    pub fn continuing(
        &mut self,
        form: Observation,
        source: TermId,
        observer: TermId,
        process: String,
        place: Spot,
        pattern: Pat,
        body: TermId,
        spot: Spot,
    ) -> Result<TermId, BuildRefusal>
        requires source_held { HoldsTerm self.old source }
        requires observer_held { HoldsTerm self.old observer }
        requires body_held { HoldsTerm self.old body }
        ensures builds { let name = next_name (program_expressions self.old) in
            let next = next_pattern (program_expressions self.old) in
            let node = terms.Continuation (record { shown = form; source = source; observer = observer; name = name; place = place; pattern = next; body = body }) in
            let whole = Trees.continuing form (tree self.old source) (tree self.old observer) (string_bytes process) (pattern_of pattern) (tree self.old body) in
            BuildsTerm self.old self.new result node whole spot (IsName (string_bytes process) × HasNames (pattern_of pattern)) }
        ensures placed { OnOk result (HasPattern self.new (next_pattern (program_expressions self.old)) pattern) }
    {
        let count = self.terms.len();
        let watched = self.depth(source).max(self.depth(observer));
        let parts = watched.max(self.depth(body));
        let (name, pattern) = self.put_both(count, parts, process, pattern)?;
        let node = Continuation {
            shown: form,
            source,
            observer,
            name,
            place,
            pattern,
            body,
        };
        self.add(Node::Continuation(node), spot)
    }

    /// Adds a form that is a name alone, at `place`, to the terms. Refused with `TooMany` where 100,000 terms are there, then with
    /// `BadName` where it is no name of the language, and with `Memory`. A refused call changes nothing.
    pub fn named(
        &mut self,
        form: Naming,
        name: String,
        place: Spot,
        spot: Spot,
    ) -> Result<TermId, BuildRefusal>
        ensures { let next = next_name (program_expressions self.old) in
            BuildsTerm self.old self.new result (terms.Named form next place) (named_term form (string_bytes name)) spot (IsName (string_bytes name)) }
    {
        let count = self.terms.len();
        let name = self.put_name(count, 0, name)?;
        self.add(Node::Named(form, name, place), spot)
    }

    /// Adds a call of the template of a name, with which it begins, on arguments to the terms. Refused with `TooMany` where
    /// 100,000 terms are there, then with `TooDeep` where more than 64 terms and expressions would stand one inside another,
    /// then with `BadName` where it is no name of the language, and with `Memory`. A refused call changes nothing.
    pub fn call(
        &mut self,
        template: String,
        arguments: Vec<Argument>,
        spot: Spot,
    ) -> Result<TermId, BuildRefusal>
        requires { All (HoldsArgument self.old) arguments.items }
        ensures builds { let name = next_name (program_expressions self.old) in
            let next = next_arguments self.old in
            let whole = reference (Trees.call (string_bytes template) (arguments_of self.old arguments.items)) in
            BuildsTerm self.old self.new result (terms.Call name next) whole spot (IsName (string_bytes template)) }
        ensures placed { let next = next_arguments self.old in
            OnOk result (HoldsArguments self.new next × (argument_nodes self.new next ≡ arguments.items)) }
    {
        let count = self.terms.len();
        let parts = self.depth_in(&arguments);
        let name = self.put_name(count, parts, template)?;
        let arguments = self.place_arguments(arguments)?;
        self.add(Node::Call(name, arguments), spot)
    }

    // Puts the arguments of a call beside the terms. Refused with `Memory` alone.
    fn place_arguments(&mut self, arguments: Vec<Argument>) -> Result<ArgumentsId, BuildRefusal>
        ensures next { IfOk result (λ id. id ≡ next_arguments self.old) }
        ensures within { IfOk result (λ id. HoldsArguments self.new id) }
        ensures is { IfOk result (λ id. argument_nodes self.new id ≡ arguments.items) }
        ensures memory { IfErr result (λ refusal. refusal ≡ BuildRefusal.Memory) }
        ensures same { IsSameProgram self.old self.new }
        ensures expressions { program_expressions self.new ≡ program_expressions self.old }
    {
        let id = ArgumentsId(self.arguments.len());
        self.arguments.push(StoredArguments::new(arguments))?;
        Ok(id)
    }

    /// The members of a name, which stands at `place`, as a collection that no form has yet. Refused with `BadName` where it is no
    /// name of the language, and with `Memory`. A refused call changes nothing.
    pub fn used(&mut self, name: String, place: Spot, spot: Spot) -> Result<CollExpr, BuildRefusal>
        ensures { IsBuilt self.old self.new result (λ c. AddsUsed self.old self.new c (string_bytes name) place spot) 0 1 (IsName (string_bytes name)) }
    {
        let name = self.put_name(0, 0, name)?;
        Ok(CollExpr::Used(name, place, spot))
    }

    /// Adds a collection, which counts as no term and which a form names by its id. Refused with `TooDeep` where more than 64
    /// collections, terms and expressions stand one inside another, and with `Memory`. A refused call changes nothing.
    pub fn add_collection(&mut self, collection: Rc<CollExpr>) -> Result<CollectionId, BuildRefusal>
        requires { HoldsMembers self.old collection.value }
        ensures { let whole = collection_of self.old collection.value in
            IsBuilt self.old self.new result (λ id. AddsCollection self.old self.new id collection.value) 0 (collection_depth whole) NoNames }
    {
        let depth = self.depth_of(&collection);
        room(0, depth, true)?;
        let id = CollectionId(self.collections.len());
        self.collections.push(collection)?;
        Ok(id)
    }

    /// Adds members that give way to a term inside a pattern, which knows them by a name, at `place`. Refused with `TooMany` where
    /// 100,000 terms are there, then with `TooDeep` where more than 64 collections, terms, patterns and expressions would stand
    /// one inside another, then with `BadName` where the name or one of the pattern is no name of the language, and with
    /// `Memory`. A refused call changes nothing.
    pub fn releasing(
        &mut self,
        shown: Observation,
        members: CollectionId,
        observer: TermId,
        name: String,
        place: Spot,
        pattern: Pat,
        body: TermId,
        spot: Spot,
    ) -> Result<TermId, BuildRefusal>
        requires members_held { HoldsWhole self.old members }
        requires observer_held { HoldsTerm self.old observer }
        requires body_held { HoldsTerm self.old body }
        ensures builds { let known = next_name (program_expressions self.old) in
            let next = next_pattern (program_expressions self.old) in
            let node = terms.Releasing (record { shown = shown; members = members; observer = observer; name = known; place = place; pattern = next; body = body }) in
            let whole = Trees.releasing shown (collection_tree self.old members) (tree self.old observer) (string_bytes name) (pattern_of pattern) (tree self.old body) in
            BuildsTerm self.old self.new result node whole spot (IsName (string_bytes name) × HasNames (pattern_of pattern)) }
        ensures placed { OnOk result (HasPattern self.new (next_pattern (program_expressions self.old)) pattern) }
    {
        let count = self.terms.len();
        let watched = self.depth_under(members).max(self.depth(observer));
        let parts = watched.max(self.depth(body));
        let (name, pattern) = self.put_both(count, parts, name, pattern)?;
        let node = Releasing {
            shown,
            members,
            observer,
            name,
            place,
            pattern,
            body,
        };
        self.add(Node::Releasing(node), spot)
    }

    /// Adds members that are edited inside a pattern, where they are known by a name, at `place`. Refused as members that give way
    /// to a term are. A refused call changes nothing.
    pub fn editing(
        &mut self,
        shown: Observation,
        members: CollectionId,
        name: String,
        place: Spot,
        pattern: Pat,
        edit: CollectionId,
        spot: Spot,
    ) -> Result<TermId, BuildRefusal>
        requires members_held { HoldsWhole self.old members }
        requires edit_held { HoldsWhole self.old edit }
        ensures builds { let known = next_name (program_expressions self.old) in
            let next = next_pattern (program_expressions self.old) in
            let node = terms.Editing (record { shown = shown; members = members; name = known; place = place; pattern = next; edit = edit }) in
            let whole = Trees.editing shown (collection_tree self.old members) (string_bytes name) (pattern_of pattern) (collection_tree self.old edit) in
            BuildsTerm self.old self.new result node whole spot (IsName (string_bytes name) × HasNames (pattern_of pattern)) }
        ensures placed { OnOk result (HasPattern self.new (next_pattern (program_expressions self.old)) pattern) }
    {
        let count = self.terms.len();
        let parts = self.depth_under(members).max(self.depth_under(edit));
        let (name, pattern) = self.put_both(count, parts, name, pattern)?;
        let node = Editing {
            shown,
            members,
            name,
            place,
            pattern,
            edit,
        };
        self.add(Node::Editing(node), spot)
    }

    /// Adds `never` for payloads of a type to the terms. Refused with `TooMany` where 100,000 terms are there, and with
    /// `Memory`. A refused call changes nothing.
    pub fn never(&mut self, payload: Ty, spot: Spot) -> Result<TermId, BuildRefusal>
        ensures { let next = next_constant (program_expressions self.old) in
            BuildsTerm self.old self.new result (Node.Primitive (Primitive.Never next)) (primitive (Trees.never payload)) spot NoNames }
    {
        let count = self.terms.len();
        let constant = self.put_constant(count, Constant::no_event(payload))?;
        self.add(Node::Primitive(Primitive::Never(constant)), spot)
    }

    /// Puts a template behind the others. Refused with `BadName` where its name or that of a parameter is no name of the
    /// language, and with `Memory`. A refused call changes nothing.
    pub fn template(
        &mut self,
        name: String,
        spot: Spot,
        parameters: Vec<Parameter>,
        input: Ty,
        output: Ty,
        body: TermId,
    ) -> Result<(), BuildRefusal>
        requires { HoldsTerm self.old body }
        ensures { IsBuilt self.old self.new result (λ _. AddsTemplate self.old self.new
            (record { name = string_bytes name; spot = spot; parameters = parameters.items; input = input; output = output; body = body })) 0 1 (IsName (string_bytes name) × AreNamed parameters.items) }
    {
        room(0, 1, are_all_named(name.as_bytes(), &parameters))?;
        self.templates
            .push(Template::new(name, spot, parameters, input, output, body))?;
        Ok(())
    }

    /// A copy, which shows the same terms, expressions and templates under the same ids.
    pub fn clone_in(&self, alloc: Global) -> Result<Program, AllocError>
        ensures { IfOk result (λ copy. IsProgramCopy self.now copy) }
    {
        let templates = clone_all(alloc, &self.templates)?;
        let arguments = clone_lists(alloc, &self.arguments)?;
        let collections = clone_collections(alloc, &self.collections)?;
        let terms = self.terms.clone_in(alloc)?;
        let expressions = self.expressions.clone_in(alloc)?;
        Ok(Program {
            expressions,
            terms,
            arguments,
            collections,
            templates,
        })
    }

    /// How many terms there are.
    #[tactic(auto, unfolding(crate::specs::Arena::term_count))]
    pub fn len(&self) -> usize
        ensures { result ≡ term_count self.now }
    {
        self.terms.len()
    }

    /// The id of the term of a number.
    #[tactic(auto, using(crate::proofs::Extended::few_terms, crate::proofs::Extended::below_count_holds))]
    pub fn term(&self, number: usize) -> TermId
        requires { number < term_count self.now }
        ensures number { term_number result ≡ number }
        ensures held { HoldsTerm self.now result }
    {
        TermId(number as u32)
    }

    /// The node at an id, with the ids of its parts.
    #[tactic(auto, using(crate::proofs::Extended::builds, crate::proofs::Extended::parts_below, crate::proofs::Extended::parts_held), unfolding(crate::specs::Arena::program_entry, crate::specs::Arena::term_node_at))]
    pub fn node(&self, id: TermId) -> Node
        requires { HoldsTerm self.now id }
        ensures value { result ≡ term_node_at self.now id }
        ensures builds { tree self.now id ≡ term_of self.now result }
        ensures below { TermPartsBelow self.now result (term_number id) }
        ensures held { HoldsTermParts self.now result }
    {
        self.entry(id).node
    }

    /// The arguments at an id, in order.
    #[tactic(auto, unfolding(crate::specs::Arena::argument_nodes, crate::specs::Arena::HoldsArguments))]
    pub fn arguments(&self, id: ArgumentsId) -> &[Argument]
        requires { HoldsArguments self.now id }
        ensures { result.now ≡ argument_nodes self.now id }
    {
        self.arguments[id.0].items()
    }

    /// The collection at an id.
    #[tactic(auto, unfolding(crate::specs::Arena::collection_node, crate::specs::Arena::HoldsCollection))]
    pub fn collection(&self, id: CollectionId) -> &CollExpr
        requires { HoldsCollection self.now id }
        ensures { result.now ≡ collection_node self.now id }
    {
        &self.collections[id.0]
    }

    /// Where the term at an id stands in the text.
    #[tactic(auto, unfolding(crate::specs::Arena::program_entry, crate::specs::Arena::term_spot_at))]
    pub fn spot(&self, id: TermId) -> Spot
        requires { HoldsTerm self.now id }
        ensures { result ≡ term_spot_at self.now id }
    {
        self.entry(id).spot
    }

    /// The expressions.
    #[tactic(auto, unfolding(crate::specs::Arena::program_expressions))]
    pub fn expressions(&self) -> &Exprs
        ensures { result.now ≡ program_expressions self.now }
    {
        &self.expressions
    }

    /// The templates, in order.
    #[tactic(auto, unfolding(crate::specs::Arena::headers_of))]
    pub fn templates(&self) -> &[Template]
        ensures templates { result.now ≡ headers_of self.now }
        ensures held { All (λ h. HoldsTerm self.now h.body) result.now }
    {
        &self.templates
    }
}
