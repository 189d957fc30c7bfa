//! What names stand for.
ghost use Rattle.std.specs.Prelude.{◌≡◌, ℕ, ◌<◌, ◌≤◌, [], bytes_eq, option_map, IsTrue, IfOk, IfSome};
ghost use Rattle.std.specs.Map.{lookup};
ghost use Rattle.sf_func.specs.Registries.{AnswersByName};
ghost use Rattle.sf_expr.specs.Arena.{stored_pattern, name_at};
ghost use Rattle.sf_expr.specs.Expressions.{Pattern, unnamed, named};
ghost use Rattle.sf_expr.specs.Numbered.{TellsName};
ghost use Rattle.sf_expr.specs.Patterns.{pattern_of};
ghost use Rattle.sf_value.specs.Values.{Name, first_of, second_of};
ghost use Rattle.sf_mean.specs.Lives.{Environment, closure, empty, bind, running, collected, process_of, members_of, each_frozen, Life};
ghost use Rattle.sf_mean.specs.Lives;
ghost use Rattle.sf_law.specs.declared.plan.Plan as plans;
ghost use Rattle.sf_law.specs.Arena.{plan_expressions, plan_tree, header_at};
ghost use Rattle.sf_law.specs.Places.{last_parameter, names_of_parameters};
ghost use Rattle.sf_code.specs.Names.{ValuesByName, value_named};
ghost use Rattle.sf_state.specs.declared.env.Env.{size-Env};
ghost use Rattle.sf_state.specs.declared.env.Binding.{size-Binding};
ghost use Rattle.sf_state.specs.declared.env.Running.{size-Running};
ghost use Rattle.sf_state.specs.declared.env.Handed.{size-Handed};
ghost use Rattle.sf_state.specs.declared.env.Collected.{size-Collected};
ghost use Rattle.sf_state.specs.declared.env.Call.{size-Call};
ghost use Rattle.sf_state.specs.declared.env.Given.{size-Given};
ghost use Rattle.sf_state.specs.Held.{gathered_holding};
ghost use Rattle.sf_state.specs.Names.{bound_value, found_or, given_at, handed_of, given_value, given_members, values_inside, values_around};
ghost use Rattle.sf_coincidence.specs.Mentions.{BindsOthers};
ghost use Rattle.sf_law.specs.declared.mentioned.Mentioned as mention_lists;
ghost use Rattle.sf_law.specs.Mentioned.{is_mentioned};
ghost use Rattle.sf_state.specs.Standing.{closed_over, HasMentioned, IsNames, AreGiven, AreFound, Gathers, IsHanded, IsFound, IsProcess};
ghost use Rattle.sf_state.specs.Machine.{Machine, machine};

use crate::state::{Gathered, Process, State};
use sf_code::Names;
use sf_expr::{Exprs, NameId, NumberedPattern, PatternId};
use sf_law::{Binder, Mentioned, Plan, PlanId, TemplateId};
use sf_value::{Form, Value};
use std::alloc::{AllocError, Global};
use std::rc::Rc;

/// What names stand for, the innermost first.
#[cycle(state)]
pub enum Env {
    /// No names.
    Empty,
    /// Those of a pattern, and those around it. They may be shared.
    Bound(Rc<Binding>),
    /// That of a process, and those around it. They may be shared.
    Running(Rc<Running>),
    /// That of members, and those around it. They may be shared.
    Collected(Rc<Collected>),
    /// Those of a template's parameters, in a call with many. They may be shared.
    Called(Rc<Call>),
}

// Names may hold a long chain of processes and members, each with the names around it: they are let go in a loop.
impl Drop for Env {
    #[cycle(state)]
    #[inline(always)]
    fn drop(self) {
        match self {
            Env::Empty => {}
            names => names.let_go(),
        }
    }
}

impl Env {
    // Lets the names go: in a loop where nothing else has them.
    #[cycle(state)]
    #[inline(never)]
    fn let_go(self) {
        if self.is_last() {
            return self.let_go_all();
        }
        match self {
            Env::Empty => {}
            Env::Bound(binding) => drop(binding),
            Env::Running(running) => drop(running),
            Env::Collected(collected) => drop(collected),
            Env::Called(call) => drop(call),
        }
    }

    // The same of names and of those around them, as far as nothing else has them.
    #[cycle(state)]
    #[cold]
    #[inline(never)]
    fn let_go_all(mut self) {
        loop {
            match self {
                Env::Empty => return,
                Env::Bound(binding) => match Rc::into_inner(binding) {
                    Some(own) => self = own.left(),
                    None => return,
                },
                Env::Running(running) => match Rc::into_inner(running) {
                    Some(own) => self = own.left(),
                    None => return,
                },
                Env::Collected(collected) => match Rc::into_inner(collected) {
                    Some(own) => self = own.left(),
                    None => return,
                },
                Env::Called(call) => match Rc::into_inner(call) {
                    Some(own) => self = own.left(),
                    None => return,
                },
            }
        }
    }

    // Whether nothing else has them, where there are any.
    pub(crate) fn is_last(&self) -> bool {
        match self {
            Env::Empty => false,
            Env::Bound(binding) => Rc::strong_count(binding) == 1,
            Env::Running(running) => Rc::strong_count(running) == 1,
            Env::Collected(collected) => Rc::strong_count(collected) == 1,
            Env::Called(call) => Rc::strong_count(call) == 1,
        }
    }
}

impl Binding {
    // The names around it, once the rest is let go.
    fn left(self) -> Env
        ensures { size-Env result < size-Binding self }
    {
        let Binding {
            pattern: _,
            value,
            around,
        } = self;
        drop(value);
        around
    }
}

impl Binding {
    // The same names of the pattern, with fewer around it, if there are fewer. The error is a want of memory, or too many owners.
    fn over(&self, alloc: Global, fewer: Option<Env>) -> Result<Option<Env>, AllocError>
        ensures { IfOk result (λ names. (μ : Machine) (m l : mention_lists.Mentioned) (e : Environment) →
            ((x : Name) → IsTrue (is_mentioned (plan_expressions μ.plan) m x) → BindsOthers (pattern_of (stored_pattern (plan_expressions μ.plan) self.now.pattern)) x → IsTrue (is_mentioned (plan_expressions μ.plan) l x)) →
            IfSome fewer (λ names. HasMentioned μ l names e) → IfSome names (λ names. HasMentioned μ m names (bind (pattern_of (stored_pattern (plan_expressions μ.plan) self.now.pattern)) self.now.value e))) }
    {
        let around = match fewer {
            Some(around) => around,
            None => return Ok(None),
        };
        let value = self.value.clone_in(alloc)?;
        let binding = Rc::new(
            alloc,
            Binding {
                pattern: self.pattern,
                value,
                around,
            },
        )?;
        Ok(Some(Env::Bound(binding)))
    }
}

impl Running {
    // The same process under its name, with fewer names around it, if there are fewer. The error is a want of memory, or too many
    // owners.
    fn over(&self, alloc: Global, fewer: Option<Env>) -> Result<Option<Env>, AllocError>
        ensures { IfOk result (λ names. (μ : Machine) (m l : mention_lists.Mentioned) (e : Environment) (P : Lives.Process) →
            ((x : Name) → IsTrue (is_mentioned (plan_expressions μ.plan) m x) → BindsOthers (named (name_at (plan_expressions μ.plan) self.now.name)) x → IsTrue (is_mentioned (plan_expressions μ.plan) l x)) →
            IsHanded μ (name_at (plan_expressions μ.plan) self.now.name) self.now.handed P → IfSome fewer (λ names. HasMentioned μ l names e) → IfSome names (λ names. HasMentioned μ m names (running (name_at (plan_expressions μ.plan) self.now.name) P e))) }
    {
        let around = match fewer {
            Some(around) => around,
            None => return Ok(None),
        };
        let handed = self.handed.share(alloc)?;
        let running = Rc::new(
            alloc,
            Running {
                name: self.name,
                handed,
                around,
            },
        )?;
        Ok(Some(Env::Running(running)))
    }
}

impl Handed {
    // The same process, shared. The error is a want of memory, or too many owners.
    fn share(&self, alloc: Global) -> Result<Handed, AllocError>
        ensures { IfOk result (λ same. (μ : Machine) (x : Name) (P : Lives.Process) → IsHanded μ x self.now P → IsHanded μ x same P) }
    {
        let process = self.process.share(alloc)?;
        let base = self.base.share()?;
        Ok(Handed { process, base })
    }
}

impl Collected {
    // The same members under their name, with fewer names around them, if there are fewer. The error is a want of memory, or too
    // many owners.
    fn over(&self, alloc: Global, fewer: Option<Env>) -> Result<Option<Env>, AllocError>
        ensures { IfOk result (λ names. (μ : Machine) (m l : mention_lists.Mentioned) (e : Environment) (ms : Lives.Members) →
            ((x : Name) → IsTrue (is_mentioned (plan_expressions μ.plan) m x) → BindsOthers (named (name_at (plan_expressions μ.plan) self.now.name)) x → IsTrue (is_mentioned (plan_expressions μ.plan) l x)) →
            Gathers μ (gathered_holding self.now.members) ms [] → IfSome fewer (λ names. HasMentioned μ l names e) → IfSome names (λ names. HasMentioned μ m names (collected (name_at (plan_expressions μ.plan) self.now.name) ms e))) }
    {
        let around = match fewer {
            Some(around) => around,
            None => return Ok(None),
        };
        let members = self.members.share()?;
        let collected = Rc::new(
            alloc,
            Collected {
                name: self.name,
                members,
                around,
            },
        )?;
        Ok(Some(Env::Collected(collected)))
    }
}

impl Running {
    // Some of the names that it has, once the rest is let go: those that nothing else has, where there are any.
    #[cycle(state)]
    fn left(self) -> Env
        ensures { size-Env result < size-Running self }
    {
        let Running {
            name: _,
            handed,
            around,
        } = self;
        let names = handed.left();
        if names.is_last() {
            drop(around);
            return names;
        }
        drop(names);
        around
    }
}

impl Handed {
    // The same of a process.
    #[cycle(state)]
    fn left(self) -> Env
        ensures { size-Env result < size-Handed self }
    {
        let Handed { process, base } = self;
        let names = process.left();
        let first = base.left();
        if names.is_last() {
            drop(first);
            return names;
        }
        drop(names);
        first
    }
}

impl Collected {
    // The same of members.
    #[cycle(state)]
    fn left(self) -> Env
        ensures { size-Env result < size-Collected self }
    {
        let Collected {
            name: _,
            members,
            around,
        } = self;
        let names = members.left();
        if names.is_last() {
            drop(around);
            return names;
        }
        drop(names);
        around
    }
}

impl Call {
    // The same of a call.
    #[cycle(state)]
    fn left(mut self) -> Env
        ensures { size-Env result ≤ size-Call self }
    {
        while let Some(given) = self.arguments.pop() {
            let names = given.left();
            if names.is_last() {
                return names;
            }
            drop(names);
        }
        Env::Empty
    }
}

impl Given {
    // The same of what is given.
    #[cycle(state)]
    fn left(self) -> Env
        ensures { size-Env result ≤ size-Given self }
    {
        match self {
            Given::Value(value) => {
                drop(value);
                Env::Empty
            }
            Given::Process(handed) => handed.left(),
            Given::Members(members) => members.left(),
        }
    }
}

/// What is bound to a pattern.
#[derive(Drop)]
pub enum Payload {
    /// A value in a node, which may be shared, as in an event.
    Shared(Rc<Value>),
    /// A value without a node, as that of a parameter, or the unit of an event.
    Own(Value),
}

impl Payload {
    /// The value. The error is a want of memory, or too many owners.
    fn value(self, alloc: Global) -> Result<Value, AllocError>
        ensures { IfOk result (λ value. value ≡ bound_value self) }
    {
        match self {
            Payload::Shared(node) => {
                let value = node.clone_in(alloc)?;
                Ok(value)
            }
            Payload::Own(value) => Ok(value),
        }
    }
}

/// The names of a pattern that is bound to a value.
#[derive(Drop)]
#[cycle(state)]
pub struct Binding {
    /// The pattern, in the expressions of the plan.
    pub pattern: PatternId,
    /// The value.
    pub value: Value,
    /// The names around it.
    pub around: Env,
}

/// The name of a process.
#[derive(Drop)]
#[cycle(state)]
pub struct Running {
    /// The name, in the expressions of the plan.
    pub name: NameId,
    /// The process.
    pub handed: Handed,
    /// The names around it.
    pub around: Env,
}

/// A process that stands under a name.
#[derive(Drop)]
#[cycle(state)]
pub struct Handed {
    /// The process, of which no step has been lived.
    pub process: State,
    /// What it began as: itself, or where it was frozen what it was before it lived. Where the plan doesn't ask for it under
    /// this name, it may be anything.
    pub base: Process,
}

/// The name of members.
#[derive(Drop)]
#[cycle(state)]
pub struct Collected {
    /// The name, in the expressions of the plan.
    pub name: NameId,
    /// The members, of which no step has been lived.
    pub members: Gathered,
    /// The names around it.
    pub around: Env,
}

/// What the parameters of a template stand for in a call.
#[derive(Drop)]
#[cycle(state)]
pub struct Call {
    /// The template.
    pub template: TemplateId,
    /// What its parameters stand for, in their order.
    pub arguments: Vec<Given>,
}

/// What a parameter stands for.
#[derive(Drop)]
#[cycle(state)]
pub enum Given {
    /// A value.
    Value(Value),
    /// A process.
    Process(Handed),
    /// Members, of which no step has been lived.
    Members(Gathered),
}

impl Call {
    // What a parameter of a name stands for: of the same names the last counts.
    fn given<'r>(&'r self, plan: &Plan, name: NameId) -> Option<&'r Given>
        ensures { option_map (λ g. g.now) result ≡ given_at (last_parameter (name_at (plan_expressions plan.now) name) (names_of_parameters (plan_expressions plan.now) (header_at plan.now self.now.template).parameters)) self.now.arguments.items }
    {
        self.arguments.get(plan.place(self.template, name)?)
    }

    // The same, if that is a process.
    fn handed<'r>(&'r self, plan: &Plan, name: NameId) -> Option<&'r Handed>
        ensures { option_map (λ h. h.now) result ≡ handed_of (given_at (last_parameter (name_at (plan_expressions plan.now) name) (names_of_parameters (plan_expressions plan.now) (header_at plan.now self.now.template).parameters)) self.now.arguments.items) }
    {
        match self.given(plan, name) {
            Some(Given::Process(handed)) => Some(handed),
            _ => None,
        }
    }

    // The same, if that are members.
    fn members<'r>(&'r self, plan: &Plan, name: NameId) -> Option<&'r Gathered>
        ensures { option_map (λ l. gathered_holding l.now) result ≡ given_members (given_at (last_parameter (name_at (plan_expressions plan.now) name) (names_of_parameters (plan_expressions plan.now) (header_at plan.now self.now.template).parameters)) self.now.arguments.items) }
    {
        match self.given(plan, name) {
            Some(Given::Members(members)) => Some(members),
            _ => None,
        }
    }

    // The same, if that is a value.
    fn value<'r>(&'r self, plan: &Plan, name: NameId) -> Option<&'r Value>
        ensures { option_map (λ v. v.now) result ≡ given_value (given_at (last_parameter (name_at (plan_expressions plan.now) name) (names_of_parameters (plan_expressions plan.now) (header_at plan.now self.now.template).parameters)) self.now.arguments.items) }
    {
        match self.given(plan, name) {
            Some(Given::Value(value)) => Some(value),
            _ => None,
        }
    }
}

impl Env {
    /// The same names, shared. The error is too many owners of one name.
    pub fn share(&self) -> Result<Env, AllocError>
        ensures { IfOk result (λ names. (μ : Machine) (e : Environment) → IsNames μ self.now e → IsNames μ names e) }
    {
        match self {
            Env::Empty => Ok(Env::Empty),
            Env::Bound(binding) => {
                let shared = binding.clone()?;
                Ok(Env::Bound(shared))
            }
            Env::Running(running) => {
                let same = running.clone()?;
                Ok(Env::Running(same))
            }
            Env::Collected(collected) => {
                let again = collected.clone()?;
                Ok(Env::Collected(again))
            }
            Env::Called(call) => {
                let both = call.clone()?;
                Ok(Env::Called(both))
            }
        }
    }

    /// The names that a term mentions, of these, shared: those of one pattern or of one call stay together, and of the same
    /// names the innermost stays. Where the plan doesn't list them, these names. The error is a want of memory, or too many owners
    /// of one name.
    #[inline(always)]
    pub fn mentioned_in(&self, alloc: Global, plan: &Plan, term: PlanId) -> Result<Env, AllocError>
        ensures { IfOk result (λ names. (φ : AnswersByName) (e : Environment) → IsNames (machine φ plan.now) self.now e → IsProcess (machine φ plan.now) (closed_over term names) (closure (plan_tree plan.now term) e)) }
    {
        let mentioned = match plan.mentioned(term) {
            Some(mentioned) => mentioned,
            None => return self.share(),
        };
        match self.fewer(alloc, plan, mentioned)? {
            Some(names) => Ok(names),
            None => self.share(),
        }
    }

    // Those of the names that are mentioned; none where that is all of them.
    fn fewer(
        &self,
        alloc: Global,
        plan: &Plan,
        mentioned: &Mentioned,
    ) -> Result<Option<Env>, AllocError>
        ensures { IfOk result (λ fewer. (φ : AnswersByName) (e : Environment) → IsNames (machine φ plan.now) self.now e → IfSome fewer (λ names. HasMentioned (machine φ plan.now) mentioned.now names e)) }
    {
        if mentioned.is_empty() {
            return Ok(self.emptied());
        }
        match self {
            Env::Empty | Env::Called(_) => Ok(None),
            Env::Bound(binding) => {
                let binder = Binder::Pattern(binding.pattern);
                if mentioned.is_bound_by(plan, binder) {
                    if binding.around.is_empty() {
                        return Ok(None);
                    }
                    let left = mentioned.outside(alloc, plan, binder)?;
                    let around = binding.around.fewer(alloc, plan, &left)?;
                    binding.over(alloc, around)
                } else {
                    let around = binding.around.fewer(alloc, plan, mentioned)?;
                    binding.around.or_shared(around)
                }
            }
            Env::Running(running) => {
                let binder = Binder::Name(running.name);
                if mentioned.is_bound_by(plan, binder) {
                    if running.around.is_empty() {
                        return Ok(None);
                    }
                    let left = mentioned.outside(alloc, plan, binder)?;
                    let around = running.around.fewer(alloc, plan, &left)?;
                    running.over(alloc, around)
                } else {
                    let around = running.around.fewer(alloc, plan, mentioned)?;
                    running.around.or_shared(around)
                }
            }
            Env::Collected(collected) => {
                let binder = Binder::Name(collected.name);
                if mentioned.is_bound_by(plan, binder) {
                    if collected.around.is_empty() {
                        return Ok(None);
                    }
                    let left = mentioned.outside(alloc, plan, binder)?;
                    let around = collected.around.fewer(alloc, plan, &left)?;
                    collected.over(alloc, around)
                } else {
                    let around = collected.around.fewer(alloc, plan, mentioned)?;
                    collected.around.or_shared(around)
                }
            }
        }
    }

    // Whether there are none.
    fn is_empty(&self) -> bool
        ensures { IsTrue result → self.now ≡ Env.Empty }
    {
        match self {
            Env::Empty => true,
            _ => false,
        }
    }

    // No names; none where these are none already.
    fn emptied(&self) -> Option<Env>
        ensures { IfSome result (λ names. names ≡ Env.Empty) }
    {
        match self {
            Env::Empty => None,
            _ => Some(Env::Empty),
        }
    }

    // Fewer names, or these, shared. The error is too many owners of one name.
    fn or_shared(&self, fewer: Option<Env>) -> Result<Option<Env>, AllocError>
        ensures { IfOk result (λ names. (μ : Machine) (m : mention_lists.Mentioned) (e : Environment) → IsNames μ self.now e → IfSome fewer (λ names. HasMentioned μ m names e) →
            IfSome names (λ names. HasMentioned μ m names e)) }
    {
        match fewer {
            Some(names) => Ok(Some(names)),
            None => Ok(Some(self.share()?)),
        }
    }

    /// These names, and inside them those of a pattern that is bound to a value. It takes no memory where the pattern binds
    /// nothing. The error is a want of memory, or too many owners.
    #[inline(always)]
    pub fn inside(
        &self,
        alloc: Global,
        plan: &Plan,
        pattern: PatternId,
        value: Payload,
    ) -> Result<Env, AllocError>
        ensures { let p = plan.now in
            IfOk result (λ names. (φ : AnswersByName) (e : Environment) → IsNames (machine φ p) self.now e →
            IsNames (machine φ p) names (bind (pattern_of (stored_pattern (plan_expressions p) pattern)) (bound_value value) e)) }
    {
        let around = self.share()?;
        if binds_nothing(plan.numbered(pattern)) {
            return Ok(around);
        }
        let value = value.value(alloc)?;
        let binding = Rc::new(
            alloc,
            Binding {
                pattern,
                value,
                around,
            },
        )?;
        Ok(Env::Bound(binding))
    }

    /// These names, and inside them that of a process of which no step has been lived, beside what it began as, where the plan
    /// asks for that under this name. The error is a want of memory, or too many owners.
    #[inline(always)]
    pub fn with_process(
        &self,
        alloc: Global,
        name: NameId,
        handed: Handed,
    ) -> Result<Env, AllocError>
        ensures { IfOk result (λ names. (μ : Machine) (e : Environment) (P : Lives.Process) → IsNames μ self.now e → IsHanded μ (name_at (plan_expressions μ.plan) name) handed P →
            IsNames μ names (running (name_at (plan_expressions μ.plan) name) P e)) }
    {
        let around = self.share()?;
        let running = Rc::new(
            alloc,
            Running {
                name,
                handed,
                around,
            },
        )?;
        Ok(Env::Running(running))
    }

    /// These names, and inside them that of members of which no step has been lived. The error is a want of memory, or too many
    /// owners.
    pub fn with_members(
        &self,
        alloc: Global,
        name: NameId,
        members: Gathered,
    ) -> Result<Env, AllocError>
        ensures { IfOk result (λ names. (μ : Machine) (e : Environment) (ms : Lives.Members) → IsNames μ self.now e → Gathers μ (gathered_holding members) ms [] →
            IsNames μ names (collected (name_at (plan_expressions μ.plan) name) ms e)) }
    {
        let around = self.share()?;
        let collected = Rc::new(
            alloc,
            Collected {
                name,
                members,
                around,
            },
        )?;
        Ok(Env::Collected(collected))
    }

    // The same with members from here on, each to go on `wait` milliseconds after its last sample.
    pub(crate) fn with_frozen(
        &self,
        alloc: Global,
        name: NameId,
        members: &Gathered,
        wait: u64,
    ) -> Result<Env, AllocError>
        ensures { IfOk result (λ names. (μ : Machine) (e : Environment) (ms : Lives.Members) (L : Life) → IsNames μ self.now e → Gathers μ (gathered_holding members.now) ms L →
            IsNames μ names (collected (name_at (plan_expressions μ.plan) name) (each_frozen ms L wait) e)) }
    {
        let frozen = members.freeze(wait)?;
        self.with_members(alloc, name, frozen)
    }

    /// The names of a template's parameters, in a call in which they stand for these. The error is a want of memory.
    pub fn of_call(
        alloc: Global,
        template: TemplateId,
        arguments: Vec<Given>,
    ) -> Result<Env, AllocError>
        ensures { IfOk result (λ names. (μ : Machine) (e : Environment) → AreGiven μ (names_of_parameters (plan_expressions μ.plan) (header_at μ.plan template).parameters) arguments.items empty e → IsNames μ names e) }
    {
        let call = Rc::new(
            alloc,
            Call {
                template,
                arguments,
            },
        )?;
        Ok(Env::Called(call))
    }

    /// What a name stands for, if that is a process: of the same names the innermost counts. The names are those of the plan.
    pub fn running<'r>(&'r self, plan: &Plan, name: NameId) -> Option<&'r Handed>
        ensures { (φ : AnswersByName) (e : Environment) → IsNames (machine φ plan.now) self.now e →
            IsFound (machine φ plan.now) (name_at (plan_expressions plan.now) name) (option_map (λ r. r.now) result) (process_of (name_at (plan_expressions plan.now) name) e) }
    {
        match self {
            Env::Empty => None,
            Env::Bound(binding) => {
                match part_named(plan, binding.pattern, &binding.value, name) {
                    Some(_) => None,
                    None => binding.around.running(plan, name),
                }
            }
            Env::Running(running) => {
                if plan.same_name(name, running.name) {
                    Some(&running.handed)
                } else {
                    running.around.running(plan, name)
                }
            }
            Env::Collected(collected) => {
                if plan.same_name(name, collected.name) {
                    None
                } else {
                    collected.around.running(plan, name)
                }
            }
            Env::Called(call) => call.handed(plan, name),
        }
    }

    /// The members of a name: of the same names the innermost counts, and what is no collection's has none. The names are those of
    /// the plan.
    pub fn members<'r>(&'r self, plan: &Plan, name: NameId) -> Option<&'r Gathered>
        ensures { (φ : AnswersByName) (e : Environment) → IsNames (machine φ plan.now) self.now e →
            AreFound (machine φ plan.now) (option_map (λ l. gathered_holding l.now) result) (members_of (name_at (plan_expressions plan.now) name) e) }
    {
        match self {
            Env::Empty => None,
            Env::Bound(binding) => {
                match part_named(plan, binding.pattern, &binding.value, name) {
                    Some(_) => {
                        // a value hides members of its name
                        None
                    }
                    None => binding.around.members(plan, name),
                }
            }
            Env::Running(running) => {
                if plan.same_name(name, running.name) {
                    None
                } else {
                    running.around.members(plan, name)
                }
            }
            Env::Collected(collected) => {
                if plan.same_name(name, collected.name) {
                    Some(&collected.members)
                } else {
                    collected.around.members(plan, name)
                }
            }
            Env::Called(call) => call.members(plan, name),
        }
    }

    // The value of a name: of the same names the innermost counts, and a process or a collection has none.
    fn value<'r>(&'r self, plan: &Plan, name: NameId) -> Option<&'r Value>
        ensures { option_map (λ v. v.now) result ≡ value_named (values_around plan.now self.now) (name_at (plan_expressions plan.now) name) }
    {
        match self {
            Env::Empty => None,
            Env::Running(running) => {
                if plan.same_name(name, running.name) {
                    None
                } else {
                    running.around.value(plan, name)
                }
            }
            Env::Collected(collected) => {
                if plan.same_name(name, collected.name) {
                    None
                } else {
                    collected.around.value(plan, name)
                }
            }
            Env::Bound(binding) => {
                match part_named(plan, binding.pattern, &binding.value, name) {
                    Some(value) => Some(value),
                    None => binding.around.value(plan, name),
                }
            }
            Env::Called(call) => call.value(plan, name),
        }
    }
}

// Whether a pattern is the one that binds nothing.
#[tactic(auto, using(crate::proofs::Scopes::nothing_told))]
fn binds_nothing(pattern: &NumberedPattern) -> bool
    ensures { IsTrue result → (m : ℕ) (x : Name) (p : Pattern) → TellsName m x pattern.now p → p ≡ unnamed }
{
    match pattern {
        NumberedPattern::Unnamed => true,
        NumberedPattern::Name(_) | NumberedPattern::Both(_, _) => false,
    }
}

// The part of a value that a name of a pattern is bound to; what is no pair stands for both its parts.
fn part_named<'r>(
    plan: &Plan,
    pattern: PatternId,
    value: &'r Value,
    name: NameId,
) -> Option<&'r Value>
    ensures { let e = plan_expressions plan.now in (vs : ValuesByName) →
        value_named (values_inside (pattern_of (stored_pattern e pattern)) value.now vs) (name_at e name) ≡ found_or (option_map (λ v. v.now) result) (value_named vs (name_at e name)) }
{
    part_of_number(plan.numbered(pattern), value, plan.number(name))
}

// The same of the number of a name.
fn part_of_number<'r>(
    pattern: &NumberedPattern,
    value: &'r Value,
    number: usize,
) -> Option<&'r Value>
    ensures { (x : Name) (p : Pattern) → TellsName number x pattern.now p → (vs : ValuesByName) →
        value_named (values_inside p value.now vs) x ≡ found_or (option_map (λ v. v.now) result) (value_named vs x) }
{
    match pattern {
        NumberedPattern::Unnamed => None,
        NumberedPattern::Name(own) => { if number == *own { Some(value) } else { None } }
        NumberedPattern::Both(first, second) => {
            let (left, right) = halves_of(value);
            match part_of_number(second, right, number) {
                Some(found) => Some(found),
                None => part_of_number(first, left, number),
            }
        }
    }
}

// The halves of a value; what is no pair stands for both.
fn halves_of(value: &Value) -> (&Value, &Value)
    ensures first { result.0.now ≡ first_of value.now }
    ensures second { result.1.now ≡ second_of value.now }
{
    match value.form() {
        Form::Pair(halves) => (&halves.first, &halves.second),
        _ => (value, value),
    }
}

/// The names of an environment, which are those of this plan.
#[derive(Clone, Copy)]
pub struct NamesIn<'a> {
    /// The plan.
    pub plan: &'a Plan,
    /// The environment.
    pub names: &'a Env,
}

impl<'a> Names for NamesIn<'a> {
    ghost values = { λ n. values_around n.plan.now n.names.now };

    ghost expressions = { λ n. plan_expressions n.plan.now };

    fn expressions(&self) -> &Exprs {
        self.plan.expressions()
    }

    fn value<'r>(&'r self, name: NameId) -> Option<&'r Value> {
        self.names.value(self.plan, name)
    }
}
