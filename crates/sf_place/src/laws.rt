//! Laws of the place at which a text is refused for a token, in functions without effect.
ghost use Rattle.std.specs.Prelude.{◌≡◌, ℕ, List, [], ◌∷◌, ◌++◌};
ghost use Rattle.sf_refusal.specs.declared.refusal.Breach.{Breach};
ghost use Rattle.sf_refusal.specs.declared.rule.Rule.TheVariants.{Unexpected};
ghost use Rattle.sf_refusal.specs.declared.spot.Spot.{Spot};
ghost use Rattle.sf_lex.specs.Tokens.{Tok};
ghost use Rattle.sf_term.specs.Trees.{Templates};
ghost use Rattle.sf_grammar.specs.declared.ty.Version.{Version};
ghost use Rattle.sf_grammar.specs.Spelling.{spell, IsWithinLimits};
ghost use Rattle.sf_grammar.specs.Stopping.{BreaksText};
ghost use Rattle.sf_place.specs.Places.{IsRefusedToken, SpellsNetwork, LeadsToNetwork, GoesNoFurther, NoNetworkFrom};

/// Where bytes are refused for a token, some network has the tokens in front of the place, and none has the token there behind
/// them. Where they are refused for their end, they are no network, and some network begins with them. Networks of any depth
/// and any size count.
pub fn the_first_that_no_network_has()
    ensures { (bytes : List ℕ) (b : Breach) → BreaksText bytes b → b.rule ≡ Unexpected → NoNetworkFrom bytes b.spot }
{}

/// There is one such place at most.
pub fn the_place_is_one()
    ensures { (bytes : List ℕ) (p q : Spot) → NoNetworkFrom bytes p → NoNetworkFrom bytes q → p ≡ q }
{}

/// A token that is refused behind others is refused there whatever tokens stand behind it.
pub fn the_place_is_local()
    ensures { (front rest : List Tok) (t : Tok) → IsRefusedToken front (t ∷ rest) → (other : List Tok) → IsRefusedToken front (t ∷ other) }
{}

/// Some network has the tokens in front of the one that is refused: what is begun there can be ended by words, symbols, the name
/// `a` and the number 1. Its depth, its size and its numbers of terms and expressions may be beyond the limits.
pub fn some_network_has_the_front()
    ensures { (front at : List Tok) → IsRefusedToken front at → LeadsToNetwork front }
{}

/// No network has the token there that is refused, whatever stands behind it, and whatever its depth and its size. Where the end
/// is refused, the tokens are no network.
pub fn no_network_goes_on()
    ensures { (front at : List Tok) → IsRefusedToken front at → GoesNoFurther front at }
{}

/// Each network within the limits is one of those that count here.
pub fn within_limits()
    ensures { (v : Version) (p : Templates) → IsWithinLimits v p → SpellsNetwork (spell v p) }
{}

/// Within the limits this is not so: some front is refused at its end, and no network within the limits has it. In one, 64 types
/// `Event` stand one inside another.
pub fn a_front_beyond_the_limits()
    ensures { (front : List Tok) × IsRefusedToken front [] × ((more : List Tok) (v : Version) (p : Templates) → IsWithinLimits v p → front ++ more ≡ spell v p → ⊥) }
{}
