//! What a program needs that runs networks: it reads a text, has it checked with its functions, and runs it sample by
//! sample, by itself or with an actuator.
#![tactic(auto)]

pub use sf_accept::{difference_text, explain_text};
pub use sf_check::{Checked, Difference, Wanted, check, difference};
pub use sf_engine::{Actuator, Embedded, Engine, EngineError, Mode, React, Sample};
pub use sf_func::{
    AddRefusal, Function, FunctionFault, Holds, Int1, Int2, OnNumber, OnNumbers, Registry,
};
pub use sf_player::{Counted, Options, PlayEnd, check_text, dump_text, play};
pub use sf_probe::{Latest, Readings, Watch};
pub use sf_refusal::{Breach, Refusal, Rule, Spot};
pub use sf_spelling::{ReadRefusal, read_value, write_value};
pub use sf_text::read_network;
pub use sf_value::{Fault, Form, Key, KeyType, Ty, TyForm, TyRefusal, Value};
