//! The texts of networks: how they are spelled, where their forms stand, and what they break.
#![tactic(auto)]

mod head;
mod laws;
mod ty;

pub use head::{
    CollectionHead, ExpressionHead, Head, Link, collection_head, expression_head, head_of, join_of,
    link_of,
};
pub use laws::{a_network_or_a_breach, one_network, one_place_a_token};
pub use ty::{TypeHead, Version, WordType, type_head};
