//! An arena of expressions.
ghost use Rattle.std.specs.Prelude.{◌≡◌, ◌<◌, ◌≤◌, ◌↔◌, true, false, [], IfOk, OnErr, IsTrue, length, string_bytes};
ghost use Rattle.sf_expr.specs.Expressions as expression_trees;
ghost use Rattle.sf_expr.specs.Expressions.{pattern_depth};
ghost use Rattle.sf_expr.specs.Patterns.{pattern_of};
ghost use Rattle.sf_arena.specs.Arenas.{entries_of};
ghost use Rattle.sf_expr.specs.Entries.{IsArena, AreFunctions, AreValued, AreShallowPatterns, has_narrow};

mod numbers;

use crate::constant::Constant;
use crate::pat::Pat;
use crate::stored::{
    StoredFunction, StoredName, clone_constants, clone_functions, clone_names, clone_patterns,
};
pub use numbers::{NumberedPattern, Numbers};
use sf_arena::{Arena, ArenaRefusal};
use sf_operator::{Folding, Mapping, Operator, Unary};
use sf_refusal::Spot;
use std::alloc::{AllocError, Global};

/// An expression in its arena.
#[derive(Clone, Copy, Debug, PartialEq, Eq)]
pub struct ExprId(pub(crate) u32);

/// A name in its arena.
#[derive(Clone, Copy, Debug, PartialEq, Eq)]
pub struct NameId(usize);

/// A constant in its arena.
#[derive(Clone, Copy, Debug, PartialEq, Eq)]
pub struct ConstantId(usize);

/// A pattern in its arena.
#[derive(Clone, Copy, Debug, PartialEq, Eq)]
pub struct PatternId(usize);

/// A function in its arena.
#[derive(Clone, Copy, Debug, PartialEq, Eq)]
pub struct FunctionId(usize);

/// An expression, whose parts are ids of expressions before it.
#[derive(Clone, Copy, Debug, PartialEq, Eq)]
pub enum ExprNode {
    /// The only value of its type.
    Unit,
    /// True or false.
    Truth(bool),
    /// A number.
    Int(i64),
    /// A constant.
    Constant(ConstantId),
    /// A name.
    Name(NameId),
    /// A pair of two expressions.
    Pair(ExprId, ExprId),
    /// An operator on its operand.
    Applied(Unary, ExprId),
    /// An operator between its operands.
    Operation(ExprId, Operator, ExprId),
    /// The second where the first is true, the third where it is false.
    Conditional(ExprId, ExprId, ExprId),
    /// A form on a value with a function.
    Mapped(Mapped),
    /// A form on two values with a function.
    Folded(Folded),
    /// A call of a stored function by its name, which stands there, on its argument.
    Called(NameId, Spot, ExprId),
}

/// A form on a value with a function.
#[derive(Clone, Copy, Debug, PartialEq, Eq)]
pub struct Mapped {
    /// The value.
    pub part: ExprId,
    /// The form.
    pub mapping: Mapping,
    /// The pattern of the function.
    pub pattern: PatternId,
    /// The body of the function.
    pub body: ExprId,
}

/// A form on two values with a function.
#[derive(Clone, Copy, Debug, PartialEq, Eq)]
pub struct Folded {
    /// The first value.
    pub first: ExprId,
    /// The form.
    pub folding: Folding,
    /// The second value.
    pub second: ExprId,
    /// The pattern of the function.
    pub pattern: PatternId,
    /// The body of the function.
    pub body: ExprId,
}

/// Expressions, of at most 100,000 nodes, of which at most 64 stand one inside another, with their names,
/// constants and patterns, and functions of them.
pub struct Exprs {
    arena: Arena<ExprNode>,
    names: Vec<StoredName>,
    constants: Vec<Constant>,
    patterns: Vec<Pat>,
    functions: Vec<StoredFunction>,
    ghost ordered: { IsArena (record { names = names.items; literals = constants.items; patterns = patterns.items }) (entries_of arena) },
    ghost valued: { AreValued constants.items },
    ghost shallow: { AreShallowPatterns patterns.items },
    ghost closed: { AreFunctions (length (entries_of arena)) functions.items },
}

impl Drop for Exprs {
    fn drop(self) {
        let Exprs {
            arena,
            names,
            constants,
            patterns,
            functions,
        } = self;
        drop(arena);
        drop(names);
        drop(constants);
        drop(patterns);
        drop(functions);
    }
}

impl Exprs {
    ghost use Rattle.sf_expr.specs.Arena.{arena_count, function_count, name_count, constant_count, pattern_count, Holds, HoldsFunction, HoldsName, HoldsConstant, HoldsPattern, expression, name_at, literal_at, stored_pattern, spot_at};
    ghost use Rattle.sf_expr.specs.Arena.{argument_pattern, body_id, function_at, id_number, entry_of, node_at, node_expression};
    ghost use Rattle.sf_expr.specs.Arena.{Builds, PartsBelow, HoldsParts, Adds, AddsName, AddsConstant, AddsPattern, AddsFunction, IsUnchanged, IsCopy};

    /// No expression, no name, no constant, no pattern and no function.
    #[tactic(auto, unfolding(crate::specs::Arena::arena_count, crate::specs::Arena::function_count, crate::specs::Arena::name_count, crate::specs::Arena::constant_count, crate::specs::Arena::pattern_count))]
    pub fn new(alloc: Global) -> Exprs
        ensures expressions { arena_count result ≡ 0 }
        ensures functions { function_count result ≡ 0 }
        ensures names { name_count result ≡ 0 }
        ensures constants { constant_count result ≡ 0 }
        ensures patterns { pattern_count result ≡ 0 }
    {
        Exprs {
            arena: Arena::new(alloc),
            names: Vec::new(alloc),
            constants: Vec::new(alloc),
            patterns: Vec::new(alloc),
            functions: Vec::new(alloc),
        }
    }

    /// How many expressions there are.
    #[tactic(auto, unfolding(crate::specs::Arena::arena_count))]
    pub fn len(&self) -> usize
        ensures { result ≡ arena_count self.now }
    {
        self.arena.len()
    }

    /// The id of the expression of a number.
    #[tactic(auto, using(crate::proofs::Entered::few_expressions, crate::proofs::Entered::below_holds))]
    pub fn at(&self, number: usize) -> ExprId
        requires { number < arena_count self.now }
        ensures number { id_number result ≡ number }
        ensures held { Holds self.now result }
    {
        ExprId(number as u32)
    }

    /// How many expressions stand one inside another in the one at an id.
    #[tactic(auto, using(crate::proofs::Entered::expression_shallow), unfolding(crate::specs::Arena::expression, crate::specs::Arena::Holds))]
    pub fn depth(&self, id: ExprId) -> u32
        requires { Holds self.now id }
        ensures value { result ≡ expression_trees.depth (expression self.now id) }
        ensures bound { result ≤ 64 }
    {
        match self.arena.get(id.0 as usize) {
            Some(entry) => entry.depth,
            None => unreachable!(),
        }
    }

    /// How many patterns or expressions stand one inside another in the function at an id.
    #[tactic(auto, using(crate::proofs::Entered::function_shallow, crate::proofs::Entered::expression_shallow, crate::proofs::Entered::pattern_shallow))]
    pub fn function_depth(&self, id: FunctionId) -> u32
        requires { HoldsFunction self.now id }
        ensures value { result ≡ expression_trees.function_depth (function_at self.now id) }
        ensures bound { result ≤ 64 }
    {
        let body = self.body(id);
        self.pattern(id).depth().max(self.depth(body))
    }

    /// How many patterns stand one inside another in the pattern at an id of patterns.
    #[tactic(auto, using(crate::proofs::Entered::placed_shallow))]
    pub fn pattern_depth(&self, pattern: PatternId) -> u32
        requires { HoldsPattern self.now pattern }
        ensures value { result ≡ pattern_depth (pattern_of (stored_pattern self.now pattern)) }
        ensures bound { result ≤ 64 }
    {
        self.placed(pattern).depth()
    }

    // How many patterns or expressions stand one inside another in a pattern and the expression that it binds names for.
    #[tactic(auto, using(crate::proofs::Entered::placed_shallow, crate::proofs::Entered::expression_shallow))]
    fn depth_under(&self, pattern: PatternId, body: ExprId) -> u32
        requires pattern { HoldsPattern self.now pattern }
        requires body { Holds self.now body }
        ensures value { result ≡ expression_trees.function_depth (expression_trees.function (pattern_of (stored_pattern self.now pattern)) (expression self.now body)) }
        ensures bound { result ≤ 64 }
    {
        self.placed(pattern).depth().max(self.depth(body))
    }

    // How many expressions would stand one inside another in that of a node.
    fn depth_with(&self, node: ExprNode) -> u32
        requires { HoldsParts self.now node }
        ensures value { result ≡ expression_trees.depth (node_expression self.now node) }
        ensures bound { result ≤ 65 }
        ensures narrow { IsTrue (has_narrow node) }
    {
        match node {
            ExprNode::Unit | ExprNode::Truth(_) | ExprNode::Int(_) => 1,
            ExprNode::Constant(_) | ExprNode::Name(_) => 1,
            ExprNode::Applied(_, part) | ExprNode::Called(_, _, part) => 1 + self.depth(part),
            ExprNode::Pair(first, second) | ExprNode::Operation(first, _, second) => {
                1 + self.depth(first).max(self.depth(second))
            }
            ExprNode::Conditional(condition, first, second) => {
                let branches = self.depth(first).max(self.depth(second));
                1 + self.depth(condition).max(branches)
            }
            ExprNode::Mapped(node) => {
                let depth = self.depth_under(node.pattern, node.body);
                1 + self.depth(node.part).max(depth)
            }
            ExprNode::Folded(node) => {
                let depth = self.depth_under(node.pattern, node.body);
                let later = self.depth(node.second).max(depth);
                1 + self.depth(node.first).max(later)
            }
        }
    }

    /// Adds the expression of a node, whose parts are held. Refused with `TooMany` where 100,000 expressions are there,
    /// then with `TooDeep` where more than 64 would stand one inside another, and with `Memory`. A refused call changes
    /// nothing.
    pub fn add(&mut self, node: ExprNode, spot: Spot) -> Result<ExprId, ArenaRefusal>
        requires { HoldsParts self.old node }
        ensures ok { IfOk result (λ id. Adds self.old self.new id node (node_expression self.old node) spot) }
        ensures many { result ≡ Err ArenaRefusal.TooMany ↔ 100000 ≤ arena_count self.old }
        ensures deep { let whole = node_expression self.old node in
            result ≡ Err ArenaRefusal.TooDeep ↔ (arena_count self.old < 100000) × (64 < expression_trees.depth whole) }
        ensures err { OnErr result (IsUnchanged self.old self.new) }
    {
        let depth = self.depth_with(node);
        match self.arena.add(node, depth, spot) {
            Ok(number) => Ok(ExprId(number as u32)),
            Err(refusal) => Err(refusal),
        }
    }

    /// Adds a name, which counts as no expression. A refused call changes nothing.
    pub fn name(&mut self, name: String) -> Result<NameId, AllocError>
        ensures ok { IfOk result (λ n. AddsName self.old self.new n (string_bytes name)) }
        ensures err { OnErr result (IsUnchanged self.old self.new) }
    {
        let number = self.names.len();
        self.names.push(StoredName::new(name))?;
        Ok(NameId(number))
    }

    /// Adds a constant, which counts as no expression. A refused call changes nothing.
    pub fn constant(&mut self, constant: Constant) -> Result<ConstantId, AllocError>
        ensures ok { IfOk result (λ n. AddsConstant self.old self.new n constant) }
        ensures err { OnErr result (IsUnchanged self.old self.new) }
    {
        let number = self.constants.len();
        let _valued = constant.form();
        self.constants.push(constant)?;
        Ok(ConstantId(number))
    }

    /// Adds a pattern, which counts as no expression. Refused with `TooDeep` where more than 64 patterns stand one inside
    /// another, and with `Memory`. A refused call changes nothing.
    pub fn pattern_in(&mut self, pattern: Pat) -> Result<PatternId, ArenaRefusal>
        ensures ok { IfOk result (λ p. AddsPattern self.old self.new p pattern) }
        ensures not_many { ¬ (result ≡ Err ArenaRefusal.TooMany) }
        ensures deep { result ≡ Err ArenaRefusal.TooDeep ↔ 64 < pattern_depth (pattern_of pattern) }
        ensures err { OnErr result (IsUnchanged self.old self.new) }
    {
        if 64 < pattern.depth() {
            return Err(ArenaRefusal::TooDeep);
        }
        let number = self.patterns.len();
        self.patterns.push(pattern)?;
        Ok(PatternId(number))
    }

    /// Adds a function, which counts as no expression. Refused with `TooDeep` where more than 64 patterns or
    /// expressions stand one inside another, and with `Memory`. A refused call changes nothing.
    #[tactic(auto, using(crate::proofs::Entered::expression_shallow))]
    pub fn function(&mut self, pattern: Pat, body: ExprId) -> Result<FunctionId, ArenaRefusal>
        requires { Holds self.old body }
        ensures ok { IfOk result (λ f. AddsFunction self.old self.new f pattern body) }
        ensures not_many { ¬ (result ≡ Err ArenaRefusal.TooMany) }
        ensures deep { let whole = expression_trees.function (pattern_of pattern) (expression self.old body) in
            result ≡ Err ArenaRefusal.TooDeep ↔ 64 < expression_trees.function_depth whole }
        ensures err { OnErr result (IsUnchanged self.old self.new) }
    {
        if 64 < pattern.depth() {
            return Err(ArenaRefusal::TooDeep);
        }
        let count = self.functions.len();
        self.functions.push(StoredFunction { pattern, body })?;
        Ok(FunctionId(count))
    }

    /// The node at an id, with the ids of its parts.
    #[tactic(auto, using(crate::proofs::Entered::builds, crate::proofs::Entered::parts_below, crate::proofs::Entered::parts_held, crate::proofs::Entered::narrow_node), unfolding(crate::specs::Arena::entry_of, crate::specs::Arena::node_at, crate::specs::Arena::Holds))]
    pub fn node(&self, id: ExprId) -> ExprNode
        requires { Holds self.now id }
        ensures value { result ≡ node_at self.now id }
        ensures builds { Builds self.now result (expression self.now id) }
        ensures below { PartsBelow result (id_number id) }
        ensures held { HoldsParts self.now result }
        ensures narrow { IsTrue (has_narrow result) }
    {
        match self.arena.get(id.0 as usize) {
            Some(entry) => entry.node,
            None => unreachable!(),
        }
    }

    /// The name at an id of names.
    #[tactic(auto, unfolding(crate::specs::Arena::name_at, crate::specs::Arena::HoldsName))]
    pub fn name_of(&self, name: NameId) -> &str
        requires { HoldsName self.now name }
        ensures { result.now ≡ name_at self.now name }
    {
        self.names[name.0].text()
    }

    /// Whether a name stands at an id.
    #[tactic(auto, unfolding(crate::specs::Arena::name_at, crate::specs::Arena::HoldsName))]
    pub fn holds_name(&self, name: NameId) -> bool
        ensures held { result ≡ true → HoldsName self.now name }
        ensures absent { result ≡ false → name_at self.now name ≡ [] }
    {
        name.0 < self.names.len()
    }

    /// The constant at an id of constants.
    #[tactic(auto, unfolding(crate::specs::Arena::literal_at, crate::specs::Arena::HoldsConstant))]
    pub fn constant_at(&self, constant: ConstantId) -> &Constant
        requires { HoldsConstant self.now constant }
        ensures { result.now ≡ literal_at self.now constant }
    {
        &self.constants[constant.0]
    }

    /// The pattern at an id of patterns.
    #[tactic(auto, unfolding(crate::specs::Arena::stored_pattern, crate::specs::Arena::HoldsPattern))]
    pub fn placed(&self, pattern: PatternId) -> &Pat
        requires { HoldsPattern self.now pattern }
        ensures { result.now ≡ stored_pattern self.now pattern }
    {
        &self.patterns[pattern.0]
    }

    /// Where the expression at an id stands in the text.
    #[tactic(auto, unfolding(crate::specs::Arena::spot_at, crate::specs::Arena::Holds))]
    pub fn spot(&self, id: ExprId) -> Spot
        requires { Holds self.now id }
        ensures { result ≡ spot_at self.now id }
    {
        match self.arena.get(id.0 as usize) {
            Some(entry) => entry.spot,
            None => unreachable!(),
        }
    }

    /// The pattern of the function at an id.
    #[tactic(auto, unfolding(crate::specs::Arena::argument_pattern, crate::specs::Arena::HoldsFunction))]
    pub fn pattern(&self, function: FunctionId) -> &Pat
        requires { HoldsFunction self.now function }
        ensures { result.now ≡ argument_pattern self.now function }
    {
        &self.functions[function.0].pattern
    }

    /// The body of the function at an id.
    #[tactic(auto, using(crate::proofs::Entered::body_at), unfolding(crate::specs::Arena::body_id, crate::specs::Arena::HoldsFunction))]
    pub fn body(&self, function: FunctionId) -> ExprId
        requires { HoldsFunction self.now function }
        ensures value { result ≡ body_id self.now function }
        ensures held { Holds self.now result }
    {
        self.functions[function.0].body
    }

    /// A copy, with the same expressions, names, constants, patterns and functions at the same ids.
    pub fn clone_in(&self, alloc: Global) -> Result<Exprs, AllocError>
        ensures { IfOk result (λ copy. IsCopy self.now copy) }
    {
        let arena = self.arena.clone_in(alloc)?;
        let names = clone_names(alloc, &self.names)?;
        let constants = clone_constants(alloc, &self.constants)?;
        let patterns = clone_patterns(alloc, &self.patterns)?;
        let functions = clone_functions(alloc, &self.functions)?;
        Ok(Exprs {
            arena,
            names,
            constants,
            patterns,
            functions,
        })
    }
}
