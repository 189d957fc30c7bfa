//! Places of names, and how they are found.
ghost use Rattle.std.specs.Prelude.{◌≡◌, ◌∷◌, IfOk, is_some, option_map};
ghost use Rattle.sf_expr.specs.Patterns.{pattern_of};
ghost use Rattle.sf_code.specs.Compiling.{path_of_name, place_of_name};
ghost use Rattle.sf_code.specs.PlaceView.{path_of, place_of, frame_patterns, around_pattern, around_frame};

use crate::pattern::FramePattern;
use sf_expr::{Pat, PatForm};
use std::alloc::{AllocError, Global};

/// A half of a pair.
#[derive(Clone, Copy, Debug, PartialEq, Eq)]
pub enum Half {
    /// The first.
    First,
    /// The second.
    Second,
}

/// The halves that lead to a part of a value, from the whole value inwards.
#[derive(Drop)]
pub enum Path {
    /// The value itself.
    Whole,
    /// A half, and the path from there.
    Half(Half, Box<Path>),
}

/// Where a name's value stands among the values of frames.
#[derive(Drop)]
pub enum Place {
    /// In the value of the innermost frame.
    Here(Path),
    /// One frame further out.
    Out(Box<Place>),
}

/// The patterns of frames.
#[derive(Clone, Copy)]
pub(crate) enum Patterns<'a> {
    /// No frame.
    Empty,
    /// That of the only frame.
    Only(&'a FramePattern<'a>),
    /// That of the innermost frame, and those around it.
    Within(&'a FramePattern<'a>, &'a Patterns<'a>),
}

impl<'a> Patterns<'a> {
    /// One frame, if there is a pattern.
    pub(crate) fn around(pattern: &'a Option<FramePattern<'a>>) -> Patterns<'a>
        ensures { frame_patterns result ≡ around_frame pattern.now }
    {
        match pattern {
            Some(pattern) => Patterns::Only(pattern),
            None => Patterns::Empty,
        }
    }

    /// These patterns, and inside them that of one frame more.
    pub(crate) fn within<'b>(&'b self, pattern: &'b FramePattern<'b>) -> Patterns<'b>
        ensures { frame_patterns result ≡ pattern_of pattern.now.pattern.now ∷ frame_patterns self.now }
    {
        Patterns::Within(pattern, self)
    }

    /// The place of a name among the frames of these patterns; none where it is not bound.
    pub(crate) fn place(&self, alloc: Global, name: &str) -> Result<Option<Place>, AllocError>
        ensures { IfOk result (λ place. option_map place_of place ≡ place_of_name name.now (frame_patterns self.now)) }
    {
        match self {
            Patterns::Empty => Ok(None),
            Patterns::Only(pattern) => match pattern.path(alloc, name)? {
                Some(path) => Ok(Some(Place::Here(path))),
                None => Ok(None),
            },
            Patterns::Within(pattern, around) => match pattern.path(alloc, name)? {
                Some(path) => Ok(Some(Place::Here(path))),
                None => match around.place(alloc, name)? {
                    Some(place) => Ok(Some(Place::Out(Box::new(alloc, place)?))),
                    None => Ok(None),
                },
            },
        }
    }

    /// Whether one of these patterns binds a name.
    pub(crate) fn binds(&self, name: &str) -> bool
        ensures { result ≡ is_some (place_of_name name.now (frame_patterns self.now)) }
    {
        match self {
            Patterns::Empty => false,
            Patterns::Only(pattern) => pattern.binds(name),
            Patterns::Within(pattern, around) => pattern.binds(name) || around.binds(name),
        }
    }
}

impl<'a> FramePattern<'a> {
    /// The pattern of the one frame around others, if there is one; the error is as that of `new`.
    pub(crate) fn around(
        alloc: Global,
        pattern: &'a Option<Box<Pat>>,
    ) -> Result<Option<FramePattern<'a>>, AllocError>
        ensures { IfOk result (λ frame. around_frame frame ≡ around_pattern pattern.now) }
    {
        match pattern {
            Some(pattern) => Ok(Some(FramePattern::new(alloc, pattern)?)),
            None => Ok(None),
        }
    }

    /// The path to a name; none where the pattern does not bind it.
    pub(crate) fn path(&self, alloc: Global, name: &str) -> Result<Option<Path>, AllocError>
        ensures { IfOk result (λ path. option_map path_of path ≡ path_of_name name.now (pattern_of self.now.pattern.now)) }
    {
        if self.rules_out(name) {
            return Ok(None);
        }
        path_in(alloc, self.pattern, name)
    }
}

/// The path to a name of a pattern; none where the pattern does not bind it.
fn path_in(alloc: Global, pattern: &Pat, name: &str) -> Result<Option<Path>, AllocError>
    ensures { IfOk result (λ path. option_map path_of path ≡ path_of_name name.now (pattern_of pattern.now)) }
{
    match pattern.form() {
        PatForm::Unnamed => Ok(None),
        PatForm::Name(own, _) => {
            if own.as_str() == name {
                Ok(Some(Path::Whole))
            } else {
                Ok(None)
            }
        }
        PatForm::Both(first, second) => match path_in(alloc, second, name)? {
            Some(path) => Ok(Some(Path::Half(Half::Second, Box::new(alloc, path)?))),
            None => match path_in(alloc, first, name)? {
                Some(path) => Ok(Some(Path::Half(Half::First, Box::new(alloc, path)?))),
                None => Ok(None),
            },
        },
    }
}
