//! The rules that a network's text can break.
ghost use Rattle.std.specs.Prelude.{◌≡◌};
ghost use Rattle.sf_refusal.specs.Refusals.{rule_number, rule_name};

/// A rule that the text of a network can break. Each has a number and a name.
#[derive(Clone, Copy, Debug, PartialEq, Eq)]
pub enum Rule {
    /// L1: a byte begins no token, or is no part of UTF-8.
    BadByte,
    /// L2: a number is outside signed 64 bits.
    NumberTooLarge,
    /// L3: a text is not closed on its line.
    OpenText,
    /// L4: the text has more than 1,048,576 bytes.
    TooLong,
    /// P1: no network has this token behind the tokens before it.
    Unexpected,
    /// P2: a form stands 65 deep.
    TooDeep,
    /// P3: the version is none that is known.
    Version,
    /// P4: a type that is written is made of more than 256 types.
    WrittenTypeTooLarge,
    /// B1: a term or an expression is the 100,001st.
    TooMany,
    /// C1: a name is not there.
    UnknownName,
    /// C2: two names are the same.
    DuplicateName,
    /// C3: a call has another number of arguments than its template has parameters.
    Arity,
    /// C4: types do not fit.
    Mismatch,
    /// C5: `pre` isn't the second part of `-->`.
    BarePre,
    /// C6: a template reaches itself by calls outside the bodies of switches.
    Endless,
    /// C7: no template is named `main` and has no parameters.
    NoMain,
    /// C8: a number of a form is outside its range.
    BadConstant,
    /// C9: a type that is found is made of more than 256 types.
    TypeTooLarge,
}

impl Rule {
    /// The number of the rule, as `P1`.
    pub fn number(self) -> &'static str
        ensures { result.now ≡ rule_number self }
    {
        match self {
            Rule::BadByte => "L1",
            Rule::NumberTooLarge => "L2",
            Rule::OpenText => "L3",
            Rule::TooLong => "L4",
            Rule::Unexpected => "P1",
            Rule::TooDeep => "P2",
            Rule::Version => "P3",
            Rule::WrittenTypeTooLarge => "P4",
            Rule::TooMany => "B1",
            Rule::UnknownName => "C1",
            Rule::DuplicateName => "C2",
            Rule::Arity => "C3",
            Rule::Mismatch => "C4",
            Rule::BarePre => "C5",
            Rule::Endless => "C6",
            Rule::NoMain => "C7",
            Rule::BadConstant => "C8",
            Rule::TypeTooLarge => "C9",
        }
    }

    /// The name of the rule, as `Unexpected`.
    pub fn name(self) -> &'static str
        ensures { result.now ≡ rule_name self }
    {
        match self {
            Rule::BadByte => "BadByte",
            Rule::NumberTooLarge => "NumberTooLarge",
            Rule::OpenText => "OpenText",
            Rule::TooLong => "TooLong",
            Rule::Unexpected => "Unexpected",
            Rule::TooDeep => "TooDeep",
            Rule::Version => "Version",
            Rule::WrittenTypeTooLarge | Rule::TypeTooLarge => "TypeTooLarge",
            Rule::TooMany => "TooMany",
            Rule::UnknownName => "UnknownName",
            Rule::DuplicateName => "DuplicateName",
            Rule::Arity => "Arity",
            Rule::Mismatch => "Mismatch",
            Rule::BarePre => "BarePre",
            Rule::Endless => "Endless",
            Rule::NoMain => "NoMain",
            Rule::BadConstant => "BadConstant",
        }
    }
}
