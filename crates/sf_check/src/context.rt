//! What terms are typed under.
ghost use Rattle.std.specs.Prelude.{◌≡◌, Some, None, IfOk, IfErr, IfSome, IfNone, OnOk};
ghost use Rattle.sf_value.specs.KindView.{key_kind_of};
ghost use Rattle.sf_func.specs.Signatures.{signatures_in};
ghost use Rattle.sf_refusal.specs.Refusals.{OrMemory};
ghost use Rattle.sf_expr.specs.Arena.{stored_pattern, HoldsName, HoldsPattern};
ghost use Rattle.sf_expr.specs.Contexts.{exprs_in, types_around};
ghost use Rattle.sf_expr.specs.Refusals.{PatternRefused};
ghost use Rattle.sf_expr.specs.Judging.{judged_binding, Stops};
ghost use Rattle.sf_expr.specs.Scopes.{frame_entries};
ghost use Rattle.sf_term.specs.Arena.{program_expressions, term_template, templates_of};
ghost use Rattle.sf_mean.specs.Contexts.{process, collection, outer_context, signature_of, signature_named, names_of_values, inside_pattern};
ghost use Rattle.sf_check.specs.Names.{names_of_set, program_names};
ghost use Rattle.sf_check.specs.Standing.{bindings_from, inside_names, kind_named, program_pattern, program_name, continuing_inside, members_inside, BindsInside};
ghost use Rattle.sf_check.specs.Judging.{judged_process, judged_collection};

use crate::collection_types::CollectionTypes;
use crate::process_types::ProcessTypes;
use indexmap::IndexSet;
use sf_expr::{ExprContext, Frame, Meaning, NameId, PatternId, TypeScope};
use sf_func::Signatures;
use sf_refusal::{Refusal, Rule, Spot};
use sf_term::{Program, Template};
use sf_value::{KeyType, Ty};
use std::alloc::{AllocError, Global};

/// What a term is typed under: the program that it stands in, whose templates have headers, and their names in order, the
/// names around the term with what they stand for, and the types of stored functions.
pub(crate) struct TypingContext<'a> {
    pub(crate) alloc: Global,
    pub(crate) program: &'a Program,
    pub(crate) templates: &'a IndexSet<String>,
    pub(crate) names: TypeScope<'a>,
    pub(crate) functions: &'a Signatures,
    ghost listed: { names_of_set templates.now ≡ program_names program.now },
}

impl<'a> Drop for TypingContext<'a> {
    fn drop(self) {
        let TypingContext {
            alloc: _,
            program: _,
            templates: _,
            names,
            functions: _,
        } = self;
        drop(names);
    }
}

impl<'a> TypingContext<'a> {
    ghost use Rattle.sf_check.specs.Contexts.{program_in, context_in};

    /// What the body of a template is typed under, around which these names alone stand.
    pub(crate) fn of_body(
        alloc: Global,
        program: &'a Program,
        templates: &'a IndexSet<String>,
        functions: &'a Signatures,
        names: &'a Frame<'a>,
    ) -> Result<TypingContext<'a>, AllocError>
        requires { names_of_set templates.now ≡ program_names program.now }
        ensures program { IfOk result (λ context. program_in context ≡ program.now) }
        ensures context { IfOk result (λ context. context_in context ≡ outer_context (signatures_in functions.now) (bindings_from (frame_entries names.now)) (templates_of program.now)) }
    {
        let names = TypeScope::of_frame(alloc, names)?;
        Ok(TypingContext {
            alloc,
            program,
            templates,
            names,
            functions,
        })
    }

    /// What expressions of the program are typed under, among the names around the term.
    pub(crate) fn expressions<'b>(&'b self) -> ExprContext<'b, 'a>
        ensures program { exprs_in result ≡ program_expressions (program_in self.now) }
        ensures names { types_around result ≡ names_of_values (context_in self.now) }
    {
        ExprContext {
            alloc: self.alloc,
            exprs: self.program.expressions(),
            names: &self.names,
            functions: self.functions,
        }
    }

    /// The template of a name, or `None` where there is none.
    pub(crate) fn template(&self, name: NameId) -> Option<&'a Template>
        requires { HoldsName (program_expressions (program_in self.now)) name }
        ensures found { IfSome result (λ t. signature_named (program_name (program_in self.now) name) (context_in self.now).signatures ≡ Some (signature_of (term_template (program_in self.now) t.now))) }
        ensures absent { IfNone result (signature_named (program_name (program_in self.now) name) (context_in self.now).signatures ≡ None) }
    {
        let name = self.program.expressions().name_of(name);
        let place = self.templates.get_index_of(name)?;
        Some(&self.program.templates()[place])
    }

    /// What a term inside names is typed under: they stand around it too.
    pub(crate) fn within<'b>(
        &'b self,
        names: &'b Frame<'b>,
    ) -> Result<TypingContext<'b>, AllocError>
        ensures program { IfOk result (λ inner. program_in inner ≡ program_in self.now) }
        ensures context { IfOk result (λ inner. context_in inner ≡ inside_names names.now (context_in self.now)) }
    {
        let names = self.names.within(self.alloc, names)?;
        Ok(TypingContext {
            alloc: self.alloc,
            program: self.program,
            templates: self.templates,
            names,
            functions: self.functions,
        })
    }

    /// The names of a pattern for a type. Refused with `DuplicateName` where two of these are the same, with the place of the
    /// later one, then with `Mismatch` at `at` where the pattern does not fit the type, and with `Memory`.
    pub(crate) fn pattern_names<'b>(
        &'b self,
        pattern: PatternId,
        ty: &'b Ty,
        at: Spot,
    ) -> Result<Frame<'b>, Refusal>
        requires { HoldsPattern (program_expressions (program_in self.now)) pattern }
        ensures inside { IfOk result (λ names. inside_names names (context_in self.now) ≡ inside_pattern (program_pattern (program_in self.now) pattern) ty.now (context_in self.now)) }
        ensures bound { OnOk result (BindsInside (program_pattern (program_in self.now) pattern) ty.now (context_in self.now)) }
        ensures found { OnOk result (judged_binding at (stored_pattern (program_expressions (program_in self.now)) pattern) ty.now (names_of_values (context_in self.now)) ≡ Ok (names_of_values (inside_pattern (program_pattern (program_in self.now) pattern) ty.now (context_in self.now)))) }
        ensures refused { IfErr result (OrMemory (PatternRefused (stored_pattern (program_expressions (program_in self.now)) pattern) ty.now at)) }
        ensures stops { IfErr result (λ r. Stops r (judged_binding at (stored_pattern (program_expressions (program_in self.now)) pattern) ty.now (names_of_values (context_in self.now)))) }
    {
        let pattern = self.program.expressions().placed(pattern);
        Frame::of_pattern(self.alloc, pattern, ty, at)
    }

    /// The name of a process from a type to a type.
    pub(crate) fn process_name<'b>(
        &'b self,
        name: NameId,
        from: &'b Ty,
        to: &'b Ty,
    ) -> Result<Frame<'b>, AllocError>
        requires { HoldsName (program_expressions (program_in self.now)) name }
        ensures { IfOk result (λ names. inside_names names (context_in self.now) ≡ continuing_inside (program_in self.now) name from.now to.now (context_in self.now)) }
    {
        let name = self.program.expressions().name_of(name);
        let mut names = Frame::new(self.alloc);
        names.add_process(name, from, to)?;
        Ok(names)
    }

    /// The name of a collection with keys of a type, of members from a type to a type.
    pub(crate) fn members_name<'b>(
        &'b self,
        name: NameId,
        keys: KeyType,
        from: &'b Ty,
        to: &'b Ty,
    ) -> Result<Frame<'b>, AllocError>
        requires { HoldsName (program_expressions (program_in self.now)) name }
        ensures { IfOk result (λ names. inside_names names (context_in self.now) ≡ members_inside (program_in self.now) name (key_kind_of keys) from.now to.now (context_in self.now)) }
    {
        let name = self.program.expressions().name_of(name);
        let mut names = Frame::new(self.alloc);
        names.add_collection(name, keys, from, to)?;
        Ok(names)
    }

    /// The types of the process that a name stands for. Refused at `at` with `UnknownName` where the name is not there, and
    /// with `Mismatch` where it stands for a value or a collection.
    pub(crate) fn process(&self, name: NameId, at: Spot) -> Result<ProcessTypes<'a>, Refusal>
        requires { HoldsName (program_expressions (program_in self.now)) name }
        ensures found { IfOk result (λ k. kind_named (program_name (program_in self.now) name) (context_in self.now).bindings ≡ Some (process k.from.now k.to.now)) }
        ensures stops { IfErr result (λ r. Stops r (judged_process at (kind_named (program_name (program_in self.now) name) (context_in self.now).bindings))) }
    {
        let name = self.program.expressions().name_of(name);
        match self.names.stands_for(name) {
            Some(Meaning::Process(from, to)) => Ok(ProcessTypes { from, to }),
            Some(Meaning::Value(_)) => Err(Refusal::broken(Rule::Mismatch, at)),
            Some(Meaning::Collection(_, _, _)) => Err(Refusal::broken(Rule::Mismatch, at)),
            None => Err(Refusal::broken(Rule::UnknownName, at)),
        }
    }

    /// The types of the collection that a name stands for. Refused at `at` with `UnknownName` where the name is not there, and
    /// with `Mismatch` where it stands for a value or a process.
    pub(crate) fn collection(&self, name: NameId, at: Spot) -> Result<CollectionTypes<'a>, Refusal>
        requires { HoldsName (program_expressions (program_in self.now)) name }
        ensures found { IfOk result (λ k. kind_named (program_name (program_in self.now) name) (context_in self.now).bindings ≡ Some (collection (key_kind_of k.keys) k.from.now k.to.now)) }
        ensures stops { IfErr result (λ r. Stops r (judged_collection at (kind_named (program_name (program_in self.now) name) (context_in self.now).bindings))) }
    {
        let name = self.program.expressions().name_of(name);
        match self.names.stands_for(name) {
            Some(Meaning::Collection(keys, from, to)) => Ok(CollectionTypes { keys, from, to }),
            Some(Meaning::Value(_)) => Err(Refusal::broken(Rule::Mismatch, at)),
            Some(Meaning::Process(_, _)) => Err(Refusal::broken(Rule::Mismatch, at)),
            None => Err(Refusal::broken(Rule::UnknownName, at)),
        }
    }
}
