//! Terms.
ghost use Rattle.std.specs.Prelude.{◌≡◌, ◌≢◌, ◌≤◌, IfOk, IfErr, List, suc, [], ◌∷◌, length, false};
ghost use Rattle.sf_term.specs.Trees.{Term, Collection, no_arguments};
ghost use Rattle.sf_term.specs.Trees;
ghost use Rattle.sf_lex.specs.Tokens.{Tok, token_of, name_bytes};
ghost use Rattle.sf_lex.specs.Tokens;
ghost use Rattle.sf_text.specs.Parsing.Answers.{toks, ahead, StopsReading, ReadsAs, counts_of};
ghost use Rattle.sf_text.specs.Answers.{ReadsTerm, ReadsTermForm, ReadsCollection, ReadsMembers, ReadsEdit, ReadsBody, ReadsArgument, ReadsArguments};
ghost use Rattle.sf_grammar.specs.Placing.{PatternPlaced, TermPlaced, CollectionPlaced, ArgumentPlaced, EachArgumentPlaced, ArgumentsPlaced};
ghost use Rattle.sf_text.specs.Parsing.Consuming.{spots_ahead, BehindOne, StandsOn, ReadStands, Parted};
ghost use Rattle.sf_text.specs.Consuming.{headed_node, HasValueSo, MembersPlaced};
ghost use Rattle.sf_grammar.specs.Reading.{begins_term, begins_collection, begins_fresh, tokens_head, parse_empty, parse_used, parse_added, parse_dropped, parse_kept, parse_chosen, parse_behind_collection_head, parse_collection_form, parse_collection, parse_gathered, parse_releasing, parse_edit, parse_editing, too_deep, term_read, parse_never, parse_value, parse_timed, parse_selected, parse_arrow, parse_accumulated, parse_sided, parse_headed, parse_transformed, parse_body, parse_switching, parse_named, parse_continuing, parse_argument, parse_arguments, parse_listed, parse_call, parse_join, parse_joined, parse_form, parse_behind_head, parse_term};
ghost use Rattle.sf_term.specs.Arena.{HoldsExpression, HoldsTerm, HoldsTermParts, term_node_at};
ghost use Rattle.sf_grammar.specs.Spelling.{stands_initially};

use crate::listed::{ArgumentFront, argument_front, separator};
use crate::parts::{Cursor, First, Mark, Reader, Stop, refused};
use sf_expr::{ExprId, Pat};
use sf_grammar::{CollectionHead, Head, Version, collection_head, head_of, join_of};
use sf_lex::{Keyword, Name, PlacedToken, Symbol, Token};
use sf_refusal::Rule;
use sf_term::{
    Accumulation, Argument, Bare, CollExpr, CollectionId, Heading, Join, Naming, Node, Observation,
    Primitive, Program, Selection, Side, Start, Switching, TermId, Timing, WithValue,
};
use std::alloc::Global;
use std::rc::Rc;

/// A term would be 65 deep here.
fn term_too_deep(cursor: &Cursor) -> Stop
    ensures { StopsReading {A = Term} result (too_deep begins_term (ahead cursor.now)) }
{
    match cursor.tokens {
        [first, ..] if head_of(&first.token).is_some() => cursor.stop(Rule::TooDeep),
        _ => cursor.stop(Rule::Unexpected),
    }
}

/// A collection would be 65 deep here.
fn collection_too_deep(cursor: &Cursor) -> Stop
    ensures { StopsReading {A = Collection} result (too_deep begins_collection (ahead cursor.now)) }
{
    match cursor.tokens {
        [first, ..] if collection_head(&first.token).is_some() => cursor.stop(Rule::TooDeep),
        _ => cursor.stop(Rule::Unexpected),
    }
}

/// Whether these tokens begin a process anew: `fresh` and another name, in a text of version 2.
fn begins_fresh(version: Version, tokens: &[PlacedToken]) -> bool
    ensures { result ≡ begins_fresh version (toks tokens.now) }
{
    let [first, second, ..] = tokens else {
        return false;
    };
    match (&first.token, &second.token) {
        (Token::Name(word), Token::Name(_)) => {
            version == Version::Two && word.as_str() == "fresh"
        }
        _ => false,
    }
}

/// The form that these tokens begin.
fn head_at(version: Version, tokens: &[PlacedToken]) -> Option<Head>
    ensures { result ≡ tokens_head version (toks tokens.now) }
{
    let [first, ..] = tokens else {
        return None;
    };
    if begins_fresh(version, tokens) {
        return Some(Head::Named(Naming::Process(Start::Fresh)));
    }
    head_of(&first.token)
}

/// A primitive without constants, behind its word.
fn bare(reader: &mut Reader, start: Mark, kind: Bare) -> Result<TermId, Stop>
    ensures reads { ReadsTermForm reader.old reader.new start result (term_read (counts_of reader.old.program) (Trees.primitive (Trees.bare kind))) }
    ensures placed { (version : Version) → ReadStands start (TermPlaced version reader.new.program) result reader.old.cursor reader.new.cursor }
{
    let node = Node::Primitive(Primitive::Bare(kind));
    start.built(reader.program.add(node, start.spot))
}

/// `never`, behind its word.
#[tactic(auto, unfolding(sf_grammar::specs::Reading::parse_never))]
fn never(reader: &mut Reader, version: Version, start: Mark, left: u32) -> Result<TermId, Stop>
    requires shallow { left ≤ 63 }
    ensures reads { ReadsTermForm reader.old reader.new start result (parse_never left version (counts_of reader.old.program)) }
    ensures placed { ReadStands start (TermPlaced version reader.new.program) result reader.old.cursor reader.new.cursor }
{
    let payload = reader.cursor.type_within(version, left)?;
    start.built(reader.program.never(payload, start.spot))
}

/// A primitive with a value, behind its word.
#[tactic(auto, unfolding(sf_grammar::specs::Reading::parse_value))]
fn with_value(
    reader: &mut Reader,
    version: Version,
    start: Mark,
    kind: WithValue,
    left: u32,
) -> Result<TermId, Stop>
    requires shallow { left ≤ 63 }
    requires behind { stands_initially kind ≡ false }
    ensures reads { ReadsTermForm reader.old reader.new start result (parse_value left version (counts_of reader.old.program) kind) }
    ensures placed { ReadStands start (TermPlaced version reader.new.program) result reader.old.cursor reader.new.cursor }
{
    let value = reader.expression(version, left)?;
    let node = Node::Primitive(Primitive::WithValue(kind, value));
    start.built(reader.program.add(node, start.spot))
}

/// A primitive with a time and a value, behind its word.
#[tactic(auto, unfolding(sf_grammar::specs::Reading::parse_timed))]
fn timed(
    reader: &mut Reader,
    version: Version,
    start: Mark,
    kind: Timing,
    left: u32,
) -> Result<TermId, Stop>
    requires shallow { left ≤ 63 }
    ensures reads { ReadsTermForm reader.old reader.new start result (parse_timed left version (counts_of reader.old.program) kind) }
    ensures placed { ReadStands start (TermPlaced version reader.new.program) result reader.old.cursor reader.new.cursor }
{
    let time = reader.cursor.number()?;
    let value = reader.expression(version, left)?;
    let node = Node::Primitive(Primitive::Timed(kind, time, value));
    start.built(reader.program.add(node, start.spot))
}

/// A primitive with a number of events, behind its word.
#[tactic(auto, unfolding(sf_grammar::specs::Reading::parse_selected))]
fn selected(reader: &mut Reader, start: Mark, kind: Selection) -> Result<TermId, Stop>
    ensures reads { ReadsTermForm reader.old reader.new start result (parse_selected (counts_of reader.old.program) kind) }
    ensures placed { (version : Version) → ReadStands start (TermPlaced version reader.new.program) result reader.old.cursor reader.new.cursor }
{
    let count = reader.cursor.number()?;
    let node = Node::Primitive(Primitive::Selected(kind, count));
    start.built(reader.program.add(node, start.spot))
}

/// A function as a primitive, behind its word.
#[tactic(auto, unfolding(sf_grammar::specs::Reading::parse_arrow))]
fn arrow(reader: &mut Reader, version: Version, start: Mark, left: u32) -> Result<TermId, Stop>
    requires shallow { left ≤ 63 }
    ensures reads { ReadsTermForm reader.old reader.new start result (parse_arrow left version (counts_of reader.old.program)) }
    ensures placed { ReadStands start (TermPlaced version reader.new.program) result reader.old.cursor reader.new.cursor }
{
    let function = reader.function(version, left)?;
    let node = Node::Primitive(Primitive::Arrow(function));
    start.built(reader.program.add(node, start.spot))
}

/// A primitive with a value and a function, behind its word.
#[tactic(auto, unfolding(sf_grammar::specs::Reading::parse_accumulated))]
fn accumulated(
    reader: &mut Reader,
    version: Version,
    start: Mark,
    kind: Accumulation,
    left: u32,
) -> Result<TermId, Stop>
    requires shallow { left ≤ 63 }
    ensures reads { ReadsTermForm reader.old reader.new start result (parse_accumulated left version (counts_of reader.old.program) kind) }
    ensures placed { ReadStands start (TermPlaced version reader.new.program) result reader.old.cursor reader.new.cursor }
{
    reader.cursor.symbol(Symbol::Open)?;
    let value = reader.expression(version, left)?;
    reader.cursor.symbol(Symbol::Comma)?;
    let function = reader.function(version, left)?;
    reader.cursor.symbol(Symbol::Close)?;
    let node = Node::Primitive(Primitive::Accumulated(kind, value, function));
    start.built(reader.program.add(node, start.spot))
}

/// A form that is a name alone, behind its word.
#[tactic(auto, unfolding(sf_grammar::specs::Reading::parse_named))]
fn named(reader: &mut Reader, start: Mark, form: Naming) -> Result<TermId, Stop>
    ensures reads { ReadsTermForm reader.old reader.new start result (parse_named form (counts_of reader.old.program)) }
    ensures placed { (version : Version) → ReadStands start (TermPlaced version reader.new.program) result reader.old.cursor reader.new.cursor }
{
    let label = reader.cursor.name()?;
    let known = String::from_str(reader.cursor.alloc, label.name.as_str())?;
    start.built(reader.program.named(form, known, label.spot, start.spot))
}

/// A collection that can be shared.
fn shared(alloc: Global, collection: CollExpr) -> Result<Rc<CollExpr>, Stop>
    ensures ok { IfOk result (λ c. c.value ≡ collection) }
    ensures err { IfErr result (λ e. e ≡ Stop.Memory) }
{
    Ok(Rc::new(alloc, collection)?)
}

/// `empty`, behind its word.
#[tactic(auto, unfolding(sf_grammar::specs::Reading::parse_empty))]
fn empty(
    reader: &mut Reader,
    version: Version,
    start: Mark,
    left: u32,
) -> Result<Rc<CollExpr>, Stop>
    requires shallow { left ≤ 63 }
    ensures reads { ReadsCollection reader.old reader.new result (parse_empty left version (ahead reader.old.cursor)) }
    ensures placed { ReadStands start (λ c. CollectionPlaced version reader.new.program c.value) result reader.old.cursor reader.new.cursor }
{
    let keys = reader.cursor.keys(version)?;
    let values = reader.cursor.type_within(version, left)?;
    let made = CollExpr::Empty(keys, values, start.spot);
    shared(reader.cursor.alloc, made)
}

/// The members of a name, behind `use`.
#[tactic(auto, unfolding(sf_grammar::specs::Reading::parse_used))]
fn used(reader: &mut Reader, start: Mark) -> Result<Rc<CollExpr>, Stop>
    ensures reads { ReadsCollection reader.old reader.new result (parse_used (ahead reader.old.cursor)) }
    ensures placed { (version : Version) → ReadStands start (λ c. CollectionPlaced version reader.new.program c.value) result reader.old.cursor reader.new.cursor }
{
    let label = reader.cursor.name()?;
    let known = String::from_str(reader.cursor.alloc, label.name.as_str())?;
    match reader.program.used(known, label.spot, start.spot) {
        Ok(made) => shared(reader.cursor.alloc, made),
        Err(refusal) => Err(refused(refusal, start.ahead)),
    }
}

/// The symbol between two terms.
fn join(cursor: &mut Cursor) -> Result<Join, Stop>
    ensures reads { ReadsAs (λ j. j) result cursor.new (parse_join (ahead cursor.old)) }
    ensures behind { IfOk result (λ j. BehindOne (spots_ahead cursor.old) (spots_ahead cursor.new)) }
{
    if let [first, rest @ ..] = cursor.tokens {
        if let Token::Symbol(symbol) = &first.token {
            if let Some(join) = join_of(*symbol) {
                cursor.tokens = rest;
                return Ok(join);
            }
        }
    }
    Err(cursor.stop(Rule::Unexpected))
}

/// A term of so much depth at most.
#[cycle(term)]
#[tactic(auto, using(crate::proofs::Deeper::term_at_more, crate::proofs::Deeper::term_at_zero))]
pub(crate) fn term(reader: &mut Reader, version: Version, left: u32) -> Result<TermId, Stop>
    requires shallow { left ≤ 64 }
    ensures reads { ReadsTerm reader.old reader.new result (parse_term left version (counts_of reader.old.program) (ahead reader.old.cursor)) }
    ensures placed { StandsOn (TermPlaced version reader.new.program) result reader.old.cursor reader.new.cursor }
{
    if left == 0 {
        return Err(term_too_deep(&reader.cursor));
    }
    form(reader, version, left - 1)
}

#[cycle(term)]
fn form(reader: &mut Reader, version: Version, left: u32) -> Result<TermId, Stop>
    requires shallow { left ≤ 63 }
    ensures reads { ReadsTerm reader.old reader.new result (parse_form left version (parse_term left version) (parse_collection left version) (counts_of reader.old.program) (ahead reader.old.cursor)) }
    ensures placed { StandsOn (TermPlaced version reader.new.program) result reader.old.cursor reader.new.cursor }
{
    let head = head_at(version, reader.cursor.tokens);
    let first = reader.cursor.first()?;
    match head {
        Some(head) => behind_head(reader, version, first, head, left),
        None => Err(Stop::At(Rule::Unexpected, first.start.ahead)),
    }
}

/// A form behind its head.
#[cycle(term)]
#[tactic(auto, unfolding(sf_grammar::specs::Reading::parse_call))]
fn behind_head<'a>(
    reader: &mut Reader<'a>,
    version: Version,
    first: First<'a>,
    head: Head,
    left: u32,
) -> Result<TermId, Stop>
    requires shallow { left ≤ 63 }
    requires stands { HasValueSo head }
    ensures reads { let whole = token_of first.entry.token.now ∷ ahead reader.old.cursor in length whole ≡ first.entry.start.ahead →
        ReadsTerm reader.old reader.new result (parse_behind_head left version (parse_term left version) (parse_collection left version) (counts_of reader.old.program) (Some head) whole (ahead reader.old.cursor)) }
    ensures placed { ReadStands first.entry.start (TermPlaced version reader.new.program) result reader.old.cursor reader.new.cursor }
{
    let First { token, start } = first;
    match head {
        Head::Bare(kind) => bare(reader, start, kind),
        Head::Never => never(reader, version, start, left),
        Head::WithValue(kind) => with_value(reader, version, start, kind, left),
        Head::Timed(kind) => timed(reader, version, start, kind, left),
        Head::Selected(kind) => selected(reader, start, kind),
        Head::Arrow => arrow(reader, version, start, left),
        Head::Accumulated(kind) => accumulated(reader, version, start, kind, left),
        Head::Joined => joined(reader, version, start, left),
        Head::Sided(side) => sided(reader, version, start, side, left),
        Head::Headed(heading) => headed(reader, version, start, heading, left),
        Head::Transformed => transformed(reader, version, start, left),
        Head::Switching(kind) => switching(reader, version, start, kind, left),
        Head::Named(form) => named(reader, start, form),
        Head::Continuation(kind) => continuing(reader, version, start, kind, left),
        Head::Gathered => gathered(reader, version, start, left),
        Head::Releasing(kind) => releasing(reader, version, start, kind, left),
        Head::Editing(kind) => editing(reader, version, start, kind, left),
        Head::Call => match token {
            Token::Name(name) => call(reader, version, start, *name, left),
            _ => Err(Stop::At(Rule::Unexpected, start.ahead)),
        },
    }
}

/// A term on one part of a pair, behind its word.
#[cycle(term)]
#[tactic(auto, unfolding(sf_grammar::specs::Reading::parse_sided))]
fn sided(
    reader: &mut Reader,
    version: Version,
    start: Mark,
    side: Side,
    left: u32,
) -> Result<TermId, Stop>
    requires shallow { left ≤ 63 }
    ensures reads { ReadsTermForm reader.old reader.new start result (parse_sided (parse_term left version) (counts_of reader.old.program) side) }
    ensures placed { ReadStands start (TermPlaced version reader.new.program) result reader.old.cursor reader.new.cursor }
{
    let part = term(reader, version, left)?;
    start.built(reader.program.add(Node::Sided(side, part), start.spot))
}

/// The node of a head, a value and a part: behind `-->`, `pre` makes one primitive with the value.
fn head_node(program: &Program, heading: Heading, value: ExprId, part: TermId) -> Node
    requires value_held { HoldsExpression program.now value }
    requires part_held { HoldsTerm program.now part }
    ensures node { result ≡ headed_node heading value part (term_node_at program.now part) }
    ensures held { HoldsTermParts program.now result }
{
    match heading {
        Heading::LoopPre | Heading::Replaced | Heading::Followed => {
            Node::Headed(heading, value, part)
        }
        Heading::Initialized => match program.node(part) {
            Node::Primitive(Primitive::Bare(Bare::Pre)) => {
                Node::Primitive(Primitive::WithValue(WithValue::InitializedPre, value))
            }
            _ => Node::Headed(heading, value, part),
        },
    }
}

/// A term with an expression at its head, behind its word or symbol.
#[cycle(term)]
#[tactic(auto, unfolding(sf_grammar::specs::Reading::parse_headed))]
fn headed(
    reader: &mut Reader,
    version: Version,
    start: Mark,
    heading: Heading,
    left: u32,
) -> Result<TermId, Stop>
    requires shallow { left ≤ 63 }
    ensures reads { ReadsTermForm reader.old reader.new start result (parse_headed left version (parse_term left version) (counts_of reader.old.program) heading) }
    ensures placed { ReadStands start (TermPlaced version reader.new.program) result reader.old.cursor reader.new.cursor }
{
    reader.cursor.symbol(Symbol::Open)?;
    let value = reader.expression(version, left)?;
    reader.cursor.symbol(Symbol::Comma)?;
    let part = term(reader, version, left)?;
    reader.cursor.symbol(Symbol::Close)?;
    let node = head_node(&reader.program, heading, value, part);
    start.built(reader.program.add(node, start.spot))
}

/// A term with a function at its head, behind `>=-`.
#[cycle(term)]
#[tactic(auto, unfolding(sf_grammar::specs::Reading::parse_transformed))]
fn transformed(
    reader: &mut Reader,
    version: Version,
    start: Mark,
    left: u32,
) -> Result<TermId, Stop>
    requires shallow { left ≤ 63 }
    ensures reads { ReadsTermForm reader.old reader.new start result (parse_transformed left version (parse_term left version) (counts_of reader.old.program)) }
    ensures placed { ReadStands start (TermPlaced version reader.new.program) result reader.old.cursor reader.new.cursor }
{
    reader.cursor.symbol(Symbol::Open)?;
    let function = reader.function(version, left)?;
    reader.cursor.symbol(Symbol::Comma)?;
    let part = term(reader, version, left)?;
    reader.cursor.symbol(Symbol::Close)?;
    let node = Node::Transformed(function, part);
    start.built(reader.program.add(node, start.spot))
}

/// The pattern and the term of a body, of so much depth at most.
#[cycle(term)]
fn body(reader: &mut Reader, version: Version, left: u32) -> Result<(Pat, TermId), Stop>
    requires shallow { left ≤ 63 }
    ensures reads { ReadsBody reader.old reader.new result (parse_body left (parse_term left version) (counts_of reader.old.program) (ahead reader.old.cursor)) }
    ensures placed { StandsOn (λ x. Parted (PatternPlaced x.0) (TermPlaced version reader.new.program x.1)) result reader.old.cursor reader.new.cursor }
{
    let pattern = reader.cursor.pattern(left)?;
    reader.cursor.symbol(Symbol::MapsTo)?;
    let id = term(reader, version, left)?;
    Ok((pattern, id))
}

/// A term that gives way to another inside a pattern, behind its word.
#[cycle(term)]
#[tactic(auto, unfolding(sf_grammar::specs::Reading::parse_switching))]
fn switching(
    reader: &mut Reader,
    version: Version,
    start: Mark,
    kind: Switching,
    left: u32,
) -> Result<TermId, Stop>
    requires shallow { left ≤ 63 }
    ensures reads { ReadsTermForm reader.old reader.new start result (parse_switching left (parse_term left version) (counts_of reader.old.program) kind) }
    ensures placed { ReadStands start (TermPlaced version reader.new.program) result reader.old.cursor reader.new.cursor }
{
    reader.cursor.symbol(Symbol::Open)?;
    let source = term(reader, version, left)?;
    reader.cursor.symbol(Symbol::Comma)?;
    let (pattern, body) = body(reader, version, left)?;
    reader.cursor.symbol(Symbol::Close)?;
    let added = reader
        .program
        .switching(kind, source, pattern, body, start.spot);
    start.built(added)
}

/// A term that gives way to another, which knows it by a name, behind its word.
#[cycle(term)]
#[tactic(auto, unfolding(sf_grammar::specs::Reading::parse_continuing))]
fn continuing(
    reader: &mut Reader,
    version: Version,
    start: Mark,
    kind: Observation,
    left: u32,
) -> Result<TermId, Stop>
    requires shallow { left ≤ 63 }
    ensures reads { ReadsTermForm reader.old reader.new start result (parse_continuing left (parse_term left version) (counts_of reader.old.program) kind) }
    ensures placed { ReadStands start (TermPlaced version reader.new.program) result reader.old.cursor reader.new.cursor }
{
    reader.cursor.symbol(Symbol::Open)?;
    let source = term(reader, version, left)?;
    reader.cursor.symbol(Symbol::Comma)?;
    let observer = term(reader, version, left)?;
    reader.cursor.symbol(Symbol::Comma)?;
    let process = reader.cursor.name()?;
    reader.cursor.symbol(Symbol::Comma)?;
    let (pattern, body) = body(reader, version, left)?;
    reader.cursor.symbol(Symbol::Close)?;
    let known = String::from_str(reader.cursor.alloc, process.name.as_str())?;
    let added = reader.program.continuing(
        kind,
        source,
        observer,
        known,
        process.spot,
        pattern,
        body,
        start.spot,
    );
    start.built(added)
}

/// A collection of so much depth at most.
#[cycle(term)]
#[tactic(auto, using(crate::proofs::Deeper::collection_at_more, crate::proofs::Deeper::collection_at_zero))]
fn collection(reader: &mut Reader, version: Version, left: u32) -> Result<Rc<CollExpr>, Stop>
    requires shallow { left ≤ 64 }
    ensures reads { ReadsCollection reader.old reader.new result (parse_collection left version (counts_of reader.old.program) (ahead reader.old.cursor)) }
    ensures placed { StandsOn (λ c. CollectionPlaced version reader.new.program c.value) result reader.old.cursor reader.new.cursor }
{
    if left == 0 {
        return Err(collection_too_deep(&reader.cursor));
    }
    collection_form(reader, version, left - 1)
}

#[cycle(term)]
fn collection_form(reader: &mut Reader, version: Version, left: u32) -> Result<Rc<CollExpr>, Stop>
    requires shallow { left ≤ 63 }
    ensures reads { ReadsCollection reader.old reader.new result (parse_collection_form left version (parse_term left version) (parse_collection left version) (counts_of reader.old.program) (ahead reader.old.cursor)) }
    ensures placed { StandsOn (λ c. CollectionPlaced version reader.new.program c.value) result reader.old.cursor reader.new.cursor }
{
    let First { token, start } = reader.cursor.first()?;
    match collection_head(token) {
        Some(head) => collection_behind(reader, version, start, head, left),
        None => Err(Stop::At(Rule::Unexpected, start.ahead)),
    }
}

/// A collection behind its word.
#[cycle(term)]
fn collection_behind(
    reader: &mut Reader,
    version: Version,
    start: Mark,
    head: CollectionHead,
    left: u32,
) -> Result<Rc<CollExpr>, Stop>
    requires shallow { left ≤ 63 }
    ensures reads { (whole : List Tok) → ReadsCollection reader.old reader.new result (parse_behind_collection_head left version (parse_term left version) (parse_collection left version) (counts_of reader.old.program) (Some head) whole (ahead reader.old.cursor)) }
    ensures placed { ReadStands start (λ c. CollectionPlaced version reader.new.program c.value) result reader.old.cursor reader.new.cursor }
{
    match head {
        CollectionHead::Empty => empty(reader, version, start, left),
        CollectionHead::Used => used(reader, start),
        CollectionHead::Added => added(reader, version, start, left),
        CollectionHead::Dropped => dropped(reader, version, start, left),
        CollectionHead::Kept => kept(reader, version, start, left),
        CollectionHead::Chosen => chosen(reader, version, start, left),
    }
}

/// A collection with a term under a key, behind `add`.
#[cycle(term)]
#[tactic(auto, unfolding(sf_grammar::specs::Reading::parse_added))]
fn added(
    reader: &mut Reader,
    version: Version,
    start: Mark,
    left: u32,
) -> Result<Rc<CollExpr>, Stop>
    requires shallow { left ≤ 63 }
    ensures reads { ReadsCollection reader.old reader.new result (parse_added left version (parse_term left version) (parse_collection left version) (counts_of reader.old.program) (ahead reader.old.cursor)) }
    ensures placed { ReadStands start (λ c. CollectionPlaced version reader.new.program c.value) result reader.old.cursor reader.new.cursor }
{
    reader.cursor.symbol(Symbol::Open)?;
    let rest = collection(reader, version, left)?;
    reader.cursor.symbol(Symbol::Comma)?;
    let key = reader.expression(version, left)?;
    reader.cursor.symbol(Symbol::Comma)?;
    let member = term(reader, version, left)?;
    reader.cursor.symbol(Symbol::Close)?;
    let made = CollExpr::Added(rest, key, member, start.spot);
    shared(reader.cursor.alloc, made)
}

/// A collection without what stands under a key, behind `drop`.
#[cycle(term)]
#[tactic(auto, unfolding(sf_grammar::specs::Reading::parse_dropped))]
fn dropped(
    reader: &mut Reader,
    version: Version,
    start: Mark,
    left: u32,
) -> Result<Rc<CollExpr>, Stop>
    requires shallow { left ≤ 63 }
    ensures reads { ReadsCollection reader.old reader.new result (parse_dropped left version (parse_collection left version) (counts_of reader.old.program) (ahead reader.old.cursor)) }
    ensures placed { ReadStands start (λ c. CollectionPlaced version reader.new.program c.value) result reader.old.cursor reader.new.cursor }
{
    reader.cursor.symbol(Symbol::Open)?;
    let rest = collection(reader, version, left)?;
    reader.cursor.symbol(Symbol::Comma)?;
    let key = reader.expression(version, left)?;
    reader.cursor.symbol(Symbol::Close)?;
    let made = CollExpr::Dropped(rest, key, start.spot);
    shared(reader.cursor.alloc, made)
}

/// The members of a collection whose keys a function keeps, behind `keep`.
#[cycle(term)]
#[tactic(auto, unfolding(sf_grammar::specs::Reading::parse_kept))]
fn kept(reader: &mut Reader, version: Version, start: Mark, left: u32) -> Result<Rc<CollExpr>, Stop>
    requires shallow { left ≤ 63 }
    ensures reads { ReadsCollection reader.old reader.new result (parse_kept left version (parse_collection left version) (counts_of reader.old.program) (ahead reader.old.cursor)) }
    ensures placed { ReadStands start (λ c. CollectionPlaced version reader.new.program c.value) result reader.old.cursor reader.new.cursor }
{
    reader.cursor.symbol(Symbol::Open)?;
    let rest = collection(reader, version, left)?;
    reader.cursor.symbol(Symbol::Comma)?;
    let function = reader.function(version, left)?;
    reader.cursor.symbol(Symbol::Close)?;
    let made = CollExpr::Kept(rest, function, start.spot);
    shared(reader.cursor.alloc, made)
}

/// One of two collections by a condition, behind `if`.
#[cycle(term)]
#[tactic(auto, unfolding(sf_grammar::specs::Reading::parse_chosen))]
fn chosen(
    reader: &mut Reader,
    version: Version,
    start: Mark,
    left: u32,
) -> Result<Rc<CollExpr>, Stop>
    requires shallow { left ≤ 63 }
    ensures reads { ReadsCollection reader.old reader.new result (parse_chosen left version (parse_collection left version) (counts_of reader.old.program) (ahead reader.old.cursor)) }
    ensures placed { ReadStands start (λ c. CollectionPlaced version reader.new.program c.value) result reader.old.cursor reader.new.cursor }
{
    let condition = reader.expression(version, left)?;
    reader.cursor.keyword(Keyword::Then)?;
    let one = collection(reader, version, left)?;
    reader.cursor.keyword(Keyword::Else)?;
    let two = collection(reader, version, left)?;
    let made = CollExpr::Chosen(condition, one, two, start.spot);
    shared(reader.cursor.alloc, made)
}

/// A collection of so much depth at most, which is then among those of the program.
#[cycle(term)]
fn members(reader: &mut Reader, version: Version, left: u32) -> Result<CollectionId, Stop>
    requires shallow { left ≤ 63 }
    ensures reads { ReadsMembers reader.old reader.new result (parse_collection left version (counts_of reader.old.program) (ahead reader.old.cursor)) }
    ensures placed { StandsOn (MembersPlaced version reader.new.program) result reader.old.cursor reader.new.cursor }
{
    let ahead = reader.cursor.tokens.len();
    let read = collection(reader, version, left)?;
    match reader.program.add_collection(read) {
        Ok(id) => Ok(id),
        Err(refusal) => Err(refused(refusal, ahead)),
    }
}

/// The members of a collection, behind `parB`.
#[cycle(term)]
#[tactic(auto, unfolding(sf_grammar::specs::Reading::parse_gathered))]
fn gathered(reader: &mut Reader, version: Version, start: Mark, left: u32) -> Result<TermId, Stop>
    requires shallow { left ≤ 63 }
    ensures reads { ReadsTermForm reader.old reader.new start result (parse_gathered (parse_collection left version) (counts_of reader.old.program)) }
    ensures placed { ReadStands start (TermPlaced version reader.new.program) result reader.old.cursor reader.new.cursor }
{
    let collection = members(reader, version, left)?;
    start.built(reader.program.add(Node::Gathered(collection), start.spot))
}

/// Members that give way to a term, which knows them by a name, behind their word.
#[cycle(term)]
#[tactic(auto, unfolding(sf_grammar::specs::Reading::parse_releasing))]
fn releasing(
    reader: &mut Reader,
    version: Version,
    start: Mark,
    kind: Observation,
    left: u32,
) -> Result<TermId, Stop>
    requires shallow { left ≤ 63 }
    ensures reads { ReadsTermForm reader.old reader.new start result (parse_releasing left (parse_term left version) (parse_collection left version) (counts_of reader.old.program) kind) }
    ensures placed { ReadStands start (TermPlaced version reader.new.program) result reader.old.cursor reader.new.cursor }
{
    reader.cursor.symbol(Symbol::Open)?;
    let source = members(reader, version, left)?;
    reader.cursor.symbol(Symbol::Comma)?;
    let observer = term(reader, version, left)?;
    reader.cursor.symbol(Symbol::Comma)?;
    let label = reader.cursor.name()?;
    reader.cursor.symbol(Symbol::Comma)?;
    let (pattern, body) = body(reader, version, left)?;
    reader.cursor.symbol(Symbol::Close)?;
    let known = String::from_str(reader.cursor.alloc, label.name.as_str())?;
    let added = reader.program.releasing(
        kind, source, observer, known, label.spot, pattern, body, start.spot,
    );
    start.built(added)
}

/// The pattern and the collection of an edit, of so much depth at most.
#[cycle(term)]
fn edit(reader: &mut Reader, version: Version, left: u32) -> Result<(Pat, CollectionId), Stop>
    requires shallow { left ≤ 63 }
    ensures reads { ReadsEdit reader.old reader.new result (parse_edit left (parse_collection left version) (counts_of reader.old.program) (ahead reader.old.cursor)) }
    ensures placed { StandsOn (λ x. Parted (PatternPlaced x.0) (MembersPlaced version reader.new.program x.1)) result reader.old.cursor reader.new.cursor }
{
    let pattern = reader.cursor.pattern(left)?;
    reader.cursor.symbol(Symbol::MapsTo)?;
    let id = members(reader, version, left)?;
    Ok((pattern, id))
}

/// Members that are edited, behind their word.
#[cycle(term)]
#[tactic(auto, unfolding(sf_grammar::specs::Reading::parse_editing))]
fn editing(
    reader: &mut Reader,
    version: Version,
    start: Mark,
    kind: Observation,
    left: u32,
) -> Result<TermId, Stop>
    requires shallow { left ≤ 63 }
    ensures reads { ReadsTermForm reader.old reader.new start result (parse_editing left (parse_collection left version) (counts_of reader.old.program) kind) }
    ensures placed { ReadStands start (TermPlaced version reader.new.program) result reader.old.cursor reader.new.cursor }
{
    reader.cursor.symbol(Symbol::Open)?;
    let source = members(reader, version, left)?;
    reader.cursor.symbol(Symbol::Comma)?;
    let label = reader.cursor.name()?;
    reader.cursor.symbol(Symbol::Comma)?;
    let (pattern, edit) = edit(reader, version, left)?;
    reader.cursor.symbol(Symbol::Close)?;
    let known = String::from_str(reader.cursor.alloc, label.name.as_str())?;
    let added = reader
        .program
        .editing(kind, source, known, label.spot, pattern, edit, start.spot);
    start.built(added)
}

/// Two terms joined, behind their opening bracket.
#[cycle(term)]
#[tactic(auto, unfolding(sf_grammar::specs::Reading::parse_joined))]
fn joined(reader: &mut Reader, version: Version, start: Mark, left: u32) -> Result<TermId, Stop>
    requires shallow { left ≤ 63 }
    ensures reads { ReadsTermForm reader.old reader.new start result (parse_joined (parse_term left version) (counts_of reader.old.program)) }
    ensures placed { ReadStands start (TermPlaced version reader.new.program) result reader.old.cursor reader.new.cursor }
{
    let one = term(reader, version, left)?;
    let join = join(&mut reader.cursor)?;
    let two = term(reader, version, left)?;
    reader.cursor.symbol(Symbol::Close)?;
    start.built(reader.program.add(Node::Joined(join, one, two), start.spot))
}

/// An argument of a call, of so much depth at most.
#[cycle(term)]
#[tactic(auto, unfolding(sf_grammar::specs::Reading::parse_argument))]
fn argument(reader: &mut Reader, version: Version, left: u32) -> Result<Argument, Stop>
    requires shallow { left ≤ 63 }
    ensures reads { ReadsArgument reader.old reader.new result (parse_argument left version (parse_term left version) (parse_collection left version) (counts_of reader.old.program) (ahead reader.old.cursor)) }
    ensures placed { StandsOn (ArgumentPlaced version reader.new.program) result reader.old.cursor reader.new.cursor }
{
    match argument_front(&reader.cursor) {
        ArgumentFront::Value => {
            let value = reader.expression(version, left)?;
            Ok(Argument::Value(value))
        }
        ArgumentFront::Process(behind) => {
            reader.cursor = behind;
            let process = term(reader, version, left)?;
            Ok(Argument::Process(process))
        }
        ArgumentFront::Members(behind) => {
            reader.cursor = behind;
            let collection = members(reader, version, left)?;
            Ok(Argument::Collection(collection))
        }
    }
}

/// Arguments of a call, one at least, each of so much depth at most, and the closing bracket behind them.
#[cycle(term)]
fn some_arguments(reader: &mut Reader, version: Version, left: u32) -> Result<Vec<Argument>, Stop>
    requires shallow { left ≤ 63 }
    ensures reads { ReadsArguments reader.old reader.new result (parse_arguments (suc (length (ahead reader.old.cursor))) left version (parse_term left version) (parse_collection left version) (counts_of reader.old.program) (ahead reader.old.cursor)) }
    ensures some { IfOk result (λ x. x.items ≢ []) }
    ensures placed { StandsOn (λ x. EachArgumentPlaced version reader.new.program x.items) result reader.old.cursor reader.new.cursor }
{
    let mut arguments = Vec::new(reader.cursor.alloc);
    let mut more = true;
    while more {
        let argument = argument(reader, version, left)?;
        arguments.push(argument)?;
        more = separator(&mut reader.cursor)?;
    }
    Ok(arguments)
}

/// The arguments of a call, if there are any, each of so much depth at most, and the closing bracket behind them.
#[cycle(term)]
fn arguments(reader: &mut Reader, version: Version, left: u32) -> Result<Vec<Argument>, Stop>
    requires shallow { left ≤ 63 }
    ensures reads { ReadsArguments reader.old reader.new result (parse_listed no_arguments (λ ts. parse_arguments (suc (length ts)) left version (parse_term left version) (parse_collection left version) (counts_of reader.old.program) ts) (ahead reader.old.cursor)) }
    ensures placed { StandsOn (λ x. ArgumentsPlaced version reader.new.program x.items) result reader.old.cursor reader.new.cursor }
{
    match reader.cursor.behind_close() {
        Some(behind) => {
            reader.cursor = behind;
            Ok(Vec::new(reader.cursor.alloc))
        }
        None => some_arguments(reader, version, left),
    }
}

/// A call, behind its name.
#[cycle(term)]
#[tactic(auto, unfolding(sf_grammar::specs::Reading::parse_call))]
fn call<'a>(
    reader: &mut Reader<'a>,
    version: Version,
    start: Mark,
    name: Name<'a>,
    left: u32,
) -> Result<TermId, Stop>
    requires shallow { left ≤ 63 }
    ensures reads { let whole = Tokens.name (name_bytes name.entry) ∷ ahead reader.old.cursor in length whole ≡ start.ahead →
        ReadsTerm reader.old reader.new result (parse_call left version (parse_term left version) (parse_collection left version) (counts_of reader.old.program) whole) }
    ensures placed { ReadStands start (TermPlaced version reader.new.program) result reader.old.cursor reader.new.cursor }
{
    reader.cursor.symbol(Symbol::Open)?;
    let arguments = arguments(reader, version, left)?;
    let known = String::from_str(reader.cursor.alloc, name.as_str())?;
    start.built(reader.program.call(known, arguments, start.spot))
}
