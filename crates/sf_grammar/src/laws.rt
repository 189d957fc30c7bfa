//! Laws of the texts of networks.
ghost use Rattle.std.specs.Prelude.{◌≡◌, ◌⊎◌, ℕ, List, length};
ghost use Rattle.sf_refusal.specs.declared.refusal.Breach.{Breach};
ghost use Rattle.sf_refusal.specs.declared.spot.Spot.{Spot};
ghost use Rattle.sf_term.specs.declared.node.TermId.{TermId};
ghost use Rattle.sf_term.specs.declared.program.Program.{Program};
ghost use Rattle.sf_term.specs.Arena.{program_expression, tree, term_template};
ghost use Rattle.sf_term.specs.Headers.{Header};
ghost use Rattle.sf_term.specs.Trees.{Templates};
ghost use Rattle.sf_expr.specs.declared.exprs.ExprId.{ExprId};
ghost use Rattle.sf_grammar.specs.declared.ty.Version.{Version};
ghost use Rattle.sf_grammar.specs.Spelling.{IsNetworkText, spell_expression, spell_term, spell_template};
ghost use Rattle.sf_grammar.specs.Stopping.{BreaksText};
ghost use Rattle.sf_grammar.specs.Placing.{ExpressionPlaced, TermPlaced, TemplatePlaced};

/// A text is that of one network at most, whatever its version.
pub fn one_network()
    ensures { (bytes : List ℕ) (p q : Templates) → IsNetworkText bytes p → IsNetworkText bytes q → p ≡ q }
{}

/// What is placed has one place for each token that spells it: so its own places say where each of its parts begins.
pub fn one_place_a_token()
    ensures expressions { (v : Version) (p : Program) (id : ExprId) (places : List Spot) → ExpressionPlaced v p id places → length places ≡ length (spell_expression v (program_expression p id)) }
    ensures terms { (v : Version) (p : Program) (id : TermId) (places : List Spot) → TermPlaced v p id places → length places ≡ length (spell_term v (tree p id)) }
    ensures templates { (v : Version) (p : Program) (h : Header) (places : List Spot) → TemplatePlaced v p h places → length places ≡ length (spell_template v (term_template p h)) }
{}

/// All bytes are the text of a network, or break a rule at a place.
pub fn a_network_or_a_breach()
    ensures { (bytes : List ℕ) → ((p : Templates) × IsNetworkText bytes p) ⊎ ((b : Breach) × BreaksText bytes b) }
{}
