//! The names around an expression.
ghost use Rattle.std.specs.Prelude.{◌≡◌, ◌++◌, Some, None, IfOk, IfSome, IfNone};
ghost use Rattle.sf_expr.specs.Meanings.{Entries, meant, found_in};
ghost use Rattle.sf_expr.specs.Scopes.{frame_entries, entries_around, with_frame};

use crate::frame::Frame;
use crate::meaning::Meaning;
use smallvec::SmallVec;
use std::alloc::{AllocError, Global};

/// The names around an expression, those of one frame behind those of another, the innermost last.
pub struct TypeScope<'a> {
    frames: SmallVec<Option<&'a Frame<'a>>, 4>,
}

impl<'a> Drop for TypeScope<'a> {
    fn drop(self) {
        let TypeScope { frames } = self;
        drop(frames);
    }
}

impl<'a> TypeScope<'a> {
    /// The names of a frame.
    pub fn of_frame(alloc: Global, frame: &'a Frame<'a>) -> Result<TypeScope<'a>, AllocError>
        ensures { IfOk result (λ names. entries_around names ≡ frame_entries frame.now) }
    {
        let mut frames = SmallVec::new(alloc);
        frames.push(Some(frame))?;
        Ok(TypeScope { frames })
    }

    /// The same names, for as long as they are looked at here.
    #[tactic(auto, using(crate::proofs::Scoped::entries_same))]
    fn shorter<'b>(&'b self, alloc: Global) -> Result<TypeScope<'b>, AllocError>
        ensures { IfOk result (λ copy. entries_around copy ≡ entries_around self.now) }
    {
        Ok(TypeScope {
            frames: SmallVec::from_slice(alloc, self.frames.as_slice())?,
        })
    }

    /// The names with those of a frame behind them.
    pub fn within<'b>(
        &'b self,
        alloc: Global,
        frame: &'b Frame<'b>,
    ) -> Result<TypeScope<'b>, AllocError>
        ensures { IfOk result (λ names. entries_around names ≡ frame_entries frame.now ++ entries_around self.now) }
    {
        let mut names = self.shorter(alloc)?;
        names.frames.push(Some(frame))?;
        Ok(names)
    }

    /// What a name stands for, the innermost of that name; none where it is not there.
    pub fn stands_for(&self, name: &str) -> Option<Meaning<'a>>
        ensures found { IfSome result (λ m. found_in name.now (entries_around self.now) ≡ Some (meant m)) }
        ensures absent { IfNone result (found_in name.now (entries_around self.now) ≡ None) }
    {
        let mut rest = self.frames.as_slice();
        while let [before @ .., last] = rest {
            match found_by(*last, name) {
                Some(meaning) => return Some(meaning),
                None => rest = before,
            }
        }
        None
    }
}

/// What the last of a name in a frame stands for; none where it is not there, or there is no frame.
fn found_by<'a>(frame: Option<&'a Frame<'a>>, name: &str) -> Option<Meaning<'a>>
    ensures found { IfSome result (λ m. (es : Entries) → found_in name.now (with_frame es frame.entry) ≡ Some (meant m)) }
    ensures absent { IfNone result ((es : Entries) → found_in name.now (with_frame es frame.entry) ≡ found_in name.now es) }
{
    frame?.find(name)
}
