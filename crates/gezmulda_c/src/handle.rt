//! What a C program holds of a session.
ghost use Rattle.std.specs.Prelude.{◌≡◌, Option, Some, None, IsSome};
ghost use Rattle.sf_session.specs.declared.session.Session.{Session};
ghost use Rattle.gezmulda_c.specs.Holding.{session_coded};

use crate::loose::Loose;
use sf_session::Session;
use std::alloc::Global;
use std::marker::Model;
use std::mem::replace;

/// A session in memory, by its address there, or nothing. Who has a handle that holds a session owns that memory.
#[repr(C)]
pub struct Handle {
    at: *mut (),
    pub ghost session: { Option Session } by { session_coded },
}

impl Model for Handle {
    ghost use Rattle.gezmulda_c.specs.Holding.{owns_at};

    ghost also_owns = { λ h. owns_at h.at h.session };
}

impl Handle {
    /// Puts a session into a handle that holds nothing.
    pub(crate) fn put(&mut self, session: Box<Session>)
        requires { self.old.session ≡ None }
        ensures { self.new.session ≡ Some session.value }
    {
        replace(self, Handle::of(Loose::of(session))).end();
    }

    /// Takes out the session that a handle holds.
    pub(crate) fn take(&mut self, alloc: Global) -> Box<Session>
        requires { IsSome self.old.session }
        ensures session { self.old.session ≡ Some result.value }
        ensures empty { self.new.session ≡ None }
    {
        replace(self, Handle::empty()).into_loose(alloc).into_box()
    }

    fn empty() -> Handle
        ensures { result.session ≡ None }
    {
        Handle {
            at: std::ptr::null_mut(),
        }
    }

    fn end(self)
        requires { self.session ≡ None }
    {
        let Handle { at: _ } = self;
    }

    fn of(session: Loose<Session, Global>) -> Handle
        ensures { result.session ≡ Some session.value }
    {
        let Loose { at, alloc: _ } = session;
        Handle { at: at.cast() }
    }

    fn into_loose(self, alloc: Global) -> Loose<Session, Global>
        requires { IsSome self.session }
        ensures { self.session ≡ Some result.value }
    {
        let Handle { at } = self;
        Loose {
            at: at.cast(),
            alloc,
        }
    }
}
