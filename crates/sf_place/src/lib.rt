//! The place at which a text is refused for a token: the first token that no network has behind the tokens before it.
#![tactic(auto)]

mod laws;

pub use laws::{
    a_front_beyond_the_limits, no_network_goes_on, some_network_has_the_front,
    the_first_that_no_network_has, the_place_is_local, the_place_is_one, within_limits,
};
