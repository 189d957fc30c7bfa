//! Literals that are no part of a node.
ghost use Rattle.std.specs.Prelude.{◌≡◌, IfOk, IsTrue, string_bytes};
ghost use Rattle.sf_expr.specs.Expressions.{text_literal, none_literal};
ghost use Rattle.sf_expr.specs.Evaluation.{literal_value};
ghost use Rattle.sf_expr.specs.Inference.{is_valued};
ghost use Rattle.sf_expr.specs.Constants.{constant_literal};

use sf_value::{Ty, Value};
use std::alloc::{AllocError, Global};
use std::marker::Model;

/// A literal that stands beside an arena: a text, or no event.
pub struct Constant {
    form: ConstantForm,
}

impl Drop for Constant {
    fn drop(self) {
        let Constant { form } = self;
        drop(form);
    }
}

/// What a constant is.
#[derive(Drop)]
pub enum ConstantForm {
    /// A text. What it is worth shares it.
    Text(Value),
    /// No event, of payloads of a type.
    NoEvent(Ty),
}

impl Model for Constant {
    ghost use Rattle.std.specs.Prelude.{IsTrue};
    ghost use Rattle.std.specs.Coded.{code_by, codes};
    ghost use Rattle.sf_value.specs.contracts.ty.Ty as ty;
    ghost use Rattle.sf_expr.specs.Expressions.{Literal};
    ghost use Rattle.sf_expr.specs.LiteralCodes.{LiteralCode, literal_code, decoded_literal, decoded_literal-code};

    ghost Value = { Literal };

    ghost coded = { code_by LiteralCode (Prim.hlevel (codes, ty.the_row.coded)) literal_code decoded_literal decoded_literal-code };

    ghost use Rattle.sf_expr.specs.Constants.{constant_literal, is_constant};

    ghost view = { λ a. constant_literal a.form };

    ghost invariant = { λ a. IsTrue (is_constant a.form) };
}

impl Constant {
    /// A text.
    #[tactic(auto, using(crate::proofs::Literals::text_constant))]
    pub fn text(alloc: Global, s: String) -> Result<Constant, AllocError>
        ensures { IfOk result (λ c. c ≡ text_literal (string_bytes s)) }
    {
        let value = Value::text(alloc, s)?;
        Ok(Constant {
            form: ConstantForm::Text(value),
        })
    }

    /// No event, of payloads of a type.
    pub fn no_event(payload: Ty) -> Constant
        ensures { result ≡ none_literal payload }
    {
        Constant {
            form: ConstantForm::NoEvent(payload),
        }
    }

    /// What it is.
    #[tactic(auto, using(crate::proofs::Literals::constant_valued))]
    pub fn form(&self) -> &ConstantForm
        ensures form { constant_literal result.now ≡ self.now }
        ensures valued { IsTrue (is_valued self.now) }
    {
        &self.form
    }

    /// What it is worth. It takes no memory.
    #[tactic(auto, using(crate::proofs::Literals::text_worth))]
    pub fn value(&self, alloc: Global) -> Result<Value, AllocError>
        ensures { IfOk result (λ v. v ≡ literal_value self.now) }
    {
        match &self.form {
            ConstantForm::Text(text) => text.clone_in(alloc),
            ConstantForm::NoEvent(_) => Ok(Value::no_event()),
        }
    }

    /// A copy. It takes no memory.
    pub(crate) fn clone_in(&self, alloc: Global) -> Result<Constant, AllocError>
        ensures { IfOk result (λ copy. copy ≡ self.now) }
    {
        let form = match &self.form {
            ConstantForm::Text(text) => ConstantForm::Text(text.clone_in(alloc)?),
            ConstantForm::NoEvent(payload) => ConstantForm::NoEvent(payload.clone_in(alloc)?),
        };
        Ok(Constant { form })
    }
}
