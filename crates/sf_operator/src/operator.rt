//! Operators.

/// An operator on one value.
#[derive(Clone, Copy, Debug, PartialEq, Eq)]
pub enum Unary {
    /// `not`: true where the operand is false.
    Not,
    /// `event`: the event of a value.
    Event,
    /// `fst`: the first part of a pair.
    First,
    /// `snd`: the second part of a pair.
    Second,
    /// `isEvent`: whether an event occurs.
    IsEvent,
    /// `size`: how many keys a table has.
    Size,
}

/// An operator on two numbers, whose result is a number.
#[derive(Clone, Copy, Debug, PartialEq, Eq)]
pub enum Arithmetic {
    /// `+`: the sum.
    Plus,
    /// `-`: the difference.
    Minus,
    /// `*`: the product.
    Times,
    /// `div`: the quotient, rounded towards minus infinity.
    Divide,
    /// `mod`: what the divisor leaves, beside that quotient.
    Modulo,
}

/// An operator on two values of one type.
#[derive(Clone, Copy, Debug, PartialEq, Eq)]
pub enum Equality {
    /// `==`: whether they are the same.
    Equal,
    /// `!=`: whether they are not.
    Unequal,
}

/// An operator on two numbers or two texts, of which it says how they stand in order.
#[derive(Clone, Copy, Debug, PartialEq, Eq)]
pub enum Comparison {
    /// `<`
    Less,
    /// `<=`
    AtMost,
    /// `>`
    Greater,
    /// `>=`
    AtLeast,
}

/// An operator on two truths, of which the first can decide alone.
#[derive(Clone, Copy, Debug, PartialEq, Eq)]
pub enum Logic {
    /// `and`: decided by false.
    And,
    /// `or`: decided by true.
    Or,
}

/// An operator on two events of one type, of which one is the result where it alone occurs.
#[derive(Clone, Copy, Debug, PartialEq, Eq)]
pub enum Merge {
    /// `lMerge`: the left one where both occur.
    Left,
    /// `rMerge`: the right one where both occur.
    Right,
    /// `merge`: a fault where both occur.
    Exclusive,
}

/// An operator on two values.
#[derive(Clone, Copy, Debug, PartialEq, Eq)]
pub enum Operator {
    /// On two numbers, to a number.
    Arithmetic(Arithmetic),
    /// Whether two values of one type are the same.
    Equality(Equality),
    /// How two numbers or two texts stand in order.
    Comparison(Comparison),
    /// On two truths, of which the second is looked at only where the first doesn't decide.
    Logic(Logic),
    /// `tag`: an event with another payload.
    Tag,
    /// `attach`: an event with a value beside its payload.
    Attach,
    /// `fromEvent`: the payload, or a value where there is none.
    FromEvent,
    /// `gate`: an event that occurs only where a truth holds.
    Gate,
    /// Two events made one.
    Merge(Merge),
    /// `get`: the event of the value under a key of a table.
    Get,
}

/// A form that makes something of a value with a function.
#[derive(Clone, Copy, Debug, PartialEq, Eq)]
pub enum Mapping {
    /// `let`: what the function makes of the value.
    Let,
    /// `filterE`: the event, where the function is true of its payload.
    Filter,
    /// `mapE`: the event of what the function makes of the payload.
    Map,
}

/// A form that makes something of two values with a function.
#[derive(Clone, Copy, Debug, PartialEq, Eq)]
pub enum Folding {
    /// `match`: what the function makes of the payload of an event, or a value where there is none.
    Match,
    /// `mergeBy`: two events made one, by the function where both occur.
    Merge,
    /// `fold`: a value with which the function takes in each key and value of a table, in order.
    Fold,
}
