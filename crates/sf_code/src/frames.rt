//! The values of frames.
ghost use Rattle.std.specs.Prelude.{◌≡◌, ◌∷◌, IfOk, option_to_list};
ghost use Rattle.sf_operator.specs.Operations.{number_held};
ghost use Rattle.sf_code.specs.Places.{half_of, part_at, value_in_frames};
ghost use Rattle.sf_code.specs.PlaceView.{path_of, place_of};
ghost use Rattle.sf_code.specs.FrameView.{frames_of, found_value};

use crate::place::{Half, Path, Place};
use sf_operator::number_in;
use sf_value::{Form, Value};
use std::alloc::{AllocError, Global};

/// The values of frames.
#[derive(Clone, Copy)]
pub(crate) enum Frames<'a> {
    /// No frame.
    Empty,
    /// That of the only frame.
    Only(&'a Value),
    /// That of the innermost frame, and those around it.
    Within(&'a Value, &'a Frames<'a>),
}

/// What stands at a place.
#[derive(Clone, Copy)]
pub(crate) enum Found<'a> {
    /// Nothing.
    Nothing,
    /// A value.
    Value(&'a Value),
}

impl<'a> Found<'a> {
    /// The value that was found; the number 0 where there is none. It takes no memory.
    pub(crate) fn value(self, alloc: Global) -> Result<Value, AllocError>
        ensures { IfOk result (λ v. v ≡ found_value self.entry) }
    {
        match self {
            Found::Nothing => Ok(Value::int(0)),
            Found::Value(value) => value.clone_in(alloc),
        }
    }

    /// The number that was found, if it is one; the number 0 where there is nothing.
    pub(crate) fn number(self) -> Option<i64>
        ensures { result ≡ number_held (found_value self.entry) }
    {
        match self {
            Found::Nothing => Some(0),
            Found::Value(value) => number_in(value),
        }
    }

    /// A half of the value; what is no pair stands for itself.
    fn half(self, half: Half) -> Found<'a>
        ensures { found_value result ≡ half_of half (found_value self.entry) }
    {
        let Found::Value(value) = self else {
            return self;
        };
        match value.form() {
            Form::Pair(halves) => match half {
                Half::First => Found::Value(&halves.first),
                Half::Second => Found::Value(&halves.second),
            },
            _ => self,
        }
    }
}

impl<'a> Frames<'a> {
    /// One frame, if there is a value.
    #[inline(always)]
    pub(crate) fn around(value: &'a Option<Value>) -> Frames<'a>
        ensures { frames_of result ≡ option_to_list value.now }
    {
        match value {
            Some(value) => Frames::Only(value),
            None => Frames::Empty,
        }
    }

    /// These frames, and inside them one with a value.
    pub(crate) fn within<'b>(&'b self, value: &'b Value) -> Frames<'b>
        ensures { frames_of result ≡ value.now ∷ frames_of self.now }
    {
        Frames::Within(value, self)
    }

    /// What stands at a place.
    #[inline(always)]
    pub(crate) fn at(&self, place: &Place) -> Found<'a>
        ensures { found_value result ≡ value_in_frames (place_of place.now) (frames_of self.now) }
    {
        match self {
            Frames::Empty => Found::Nothing,
            Frames::Only(value) => match place {
                Place::Here(path) => part(Found::Value(value), path),
                Place::Out(_) => Found::Nothing,
            },
            Frames::Within(value, around) => match place {
                Place::Here(path) => part(Found::Value(value), path),
                Place::Out(outer) => around.further(outer),
            },
        }
    }

    /// The same, by a call for each frame.
    fn further(&self, place: &Place) -> Found<'a>
        ensures { found_value result ≡ value_in_frames (place_of place.now) (frames_of self.now) }
    {
        match self {
            Frames::Empty => Found::Nothing,
            Frames::Only(value) => match place {
                Place::Here(path) => part(Found::Value(value), path),
                Place::Out(_) => Found::Nothing,
            },
            Frames::Within(value, around) => match place {
                Place::Here(path) => part(Found::Value(value), path),
                Place::Out(place) => around.further(place),
            },
        }
    }
}

/// The part of a value that a path leads to; what is no pair stands for its halves.
#[inline(always)]
pub(crate) fn part<'a>(whole: Found<'a>, path: &Path) -> Found<'a>
    ensures { found_value result ≡ part_at (path_of path.now) (found_value whole.entry) }
{
    match path {
        Path::Whole => whole,
        Path::Half(half, path) => {
            let found = whole.half(*half);
            match &**path {
                Path::Whole => found,
                Path::Half(_, _) => part_within(found, path),
            }
        }
    }
}

/// The same, by a call for each half.
fn part_within<'a>(whole: Found<'a>, path: &Path) -> Found<'a>
    ensures { found_value result ≡ part_at (path_of path.now) (found_value whole.entry) }
{
    match path {
        Path::Whole => whole,
        Path::Half(half, path) => part_within(whole.half(*half), path),
    }
}
