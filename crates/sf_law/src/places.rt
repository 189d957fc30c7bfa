//! Where the parameters of templates stand.
ghost use Rattle.std.specs.Prelude.{◌≡◌, IfOk};
ghost use Rattle.std.specs.BTreeMap.{get};
ghost use Rattle.std.specs.Ordering.{nat_cmp};
ghost use Rattle.sf_expr.specs.declared.exprs.Exprs as expression_arenas;
ghost use Rattle.sf_expr.specs.declared.exprs.NameId as name_ids;
ghost use Rattle.sf_expr.specs.Arena.{name_at};
ghost use Rattle.sf_expr.specs.Numbered.{number_at, AreNumbers};
ghost use Rattle.sf_law.specs.Places.{last_parameter, names_of_parameters, ArePlaces};

use crate::template::{PlanParameter, PlanTemplate};
use sf_expr::Numbers;
use std::alloc::{AllocError, Global};
use std::collections::BTreeMap;

/// The place of the last parameter of each name, from 0, under the name's number.
fn places_of(
    alloc: Global,
    numbers: &Numbers,
    parameters: &[PlanParameter],
) -> Result<BTreeMap<usize, usize>, AllocError>
    ensures { IfOk result (λ places. (e : expression_arenas.Exprs) → AreNumbers e numbers.now → (k : name_ids.NameId)
        → get nat_cmp places (number_at numbers.now k) ≡ last_parameter (name_at e k) (names_of_parameters e parameters.now)) }
{
    let mut places = BTreeMap::new(alloc);
    for place in 0..parameters.len() {
        places.insert(numbers.number(parameters[place].name()), place)?;
    }
    Ok(places)
}

/// The same of each template.
pub(crate) fn all_places(
    alloc: Global,
    numbers: &Numbers,
    templates: &[PlanTemplate],
) -> Result<Vec<BTreeMap<usize, usize>>, AllocError>
    ensures { IfOk result (λ places. (e : expression_arenas.Exprs) → AreNumbers e numbers.now → ArePlaces e numbers.now templates.now places.items) }
{
    let mut places = Vec::with_capacity(alloc, templates.len())?;
    for template in templates {
        places.push(places_of(alloc, numbers, template.parameters())?)?;
    }
    Ok(places)
}

/// The place under a number.
pub(crate) fn place_in(places: &BTreeMap<usize, usize>, number: usize) -> Option<usize>
    ensures { result ≡ get nat_cmp places.now number }
{
    places.get(&number).copied()
}
