//! Accepted networks.
ghost use Rattle.std.specs.Prelude.{◌≡◌, ◌↔◌, [], IsTrue, Some, position, bytes_eq, codes, option_map, IfSome};
ghost use Rattle.sf_func.specs.Signatures.{signatures_in};
ghost use Rattle.sf_term.specs.Arena.{tree, term_template, templates_of, program_expressions};
ghost use Rattle.sf_term.specs.Headers.{Header};
ghost use Rattle.sf_mean.specs.Networks.{main_of, template_named};
ghost use Rattle.sf_mean.specs.Contexts.{template_context};
ghost use Rattle.sf_mean.specs.Typing.{Takes, Accepted};
ghost use Rattle.sf_expr.specs.Typing.{Fits};
ghost use Rattle.sf_check.specs.Calling.{AreCalledAlike};
ghost use Rattle.sf_check.specs.Names.{names_of_set, program_names, IsHeaderNamed};

use crate::calling::are_called_alike;
use indexmap::IndexSet;
use sf_func::{Holds, Signatures};
use sf_term::{Program, Template, TermId};
use sf_value::Ty;

/// An accepted network.
pub struct Checked {
    pub(crate) program: Program,
    pub(crate) functions: Signatures,
    pub(crate) names: IndexSet<String>,
    pub(crate) main: usize,
    ghost accepted: { ∥ Accepted (signatures_in functions) (templates_of program) ∥₁ },
    ghost named: { names_of_set names ≡ program_names program },
    ghost main_found: { position (bytes_eq (codes "main")) (program_names program) ≡ Some main },
}

impl Drop for Checked {
    fn drop(self) {
        let Checked {
            program,
            functions,
            names,
            main: _,
        } = self;
        drop(program);
        drop(functions);
        drop(names);
    }
}

impl Checked {
    ghost use Rattle.sf_check.specs.Accepting.{accepted_program, types_checked, checked_main};

    /// The program that was accepted. It has a template `main` without parameters.
    pub fn program(&self) -> &Program
        ensures program { result.now ≡ accepted_program self.now }
        ensures accepted { Accepted (types_checked self.now) (templates_of (accepted_program self.now)) }
        ensures main { main_of (templates_of (accepted_program self.now)) ≡ Some (checked_main self.now) }
        ensures bare { (checked_main self.now).parameters ≡ [] }
    {
        &self.program
    }

    /// The template of a name, or `None` where the network has none.
    pub fn template(&self, name: &str) -> Option<&Template>
        ensures found { option_map (λ found. term_template (accepted_program self.now) found.now) result ≡ template_named name.now (templates_of (accepted_program self.now)) }
        ensures stands { IfSome result (λ found. IsHeaderNamed (accepted_program self.now) name.now found.now) }
    {
        let place = self.names.get_index_of(name)?;
        Some(&self.program.templates()[place])
    }

    /// The template that is run.
    fn main_template(&self) -> &Template
        ensures main { term_template (accepted_program self.now) result.now ≡ checked_main self.now }
        ensures stands { IsHeaderNamed (accepted_program self.now) (codes "main") result.now }
    {
        &self.program.templates()[self.main]
    }

    /// The term of `main`, by its id in the program.
    pub fn main(&self) -> TermId
        ensures stands { (main : Header) × IsHeaderNamed (accepted_program self.now) (codes "main") main × (result ≡ main.body) }
        ensures term { tree (accepted_program self.now) result ≡ (checked_main self.now).body }
        ensures typed { Takes (template_context (types_checked self.now) [] (templates_of (accepted_program self.now))) (checked_main self.now).body (checked_main self.now).input (checked_main self.now).output }
        ensures fits { Fits (checked_main self.now).input }
    {
        self.main_template().body()
    }

    /// The type of the inputs of `main`.
    pub fn input(&self) -> &Ty
        ensures { result.now ≡ (checked_main self.now).input }
    {
        self.main_template().input()
    }

    /// Whether each function that the network calls is there with the same types. If so, it is accepted with these
    /// functions too.
    pub fn fits<R: Holds>(&self, functions: &R) -> bool
        ensures same { IsTrue result ↔ AreCalledAlike (program_expressions (accepted_program self.now)) (types_checked self.now) (R.types functions.now) }
        ensures accepted { IsTrue result → Accepted (R.types functions.now) (templates_of (accepted_program self.now)) }
    {
        are_called_alike(self.program.expressions(), &self.functions, functions)
    }
}
