//! The pointer by which C owns a session.
ghost use Rattle.std.specs.{Prelude.{◌≡◌, Option, Some, None, IsSome}, Coded.coded_option};
ghost use Rattle.model_lines.specs.Sessions.{SessionNow};
ghost use Rattle.pciguest_c.specs.Owning.{session_coded, owner_owns};

use crate::unboxed::Unboxed;
use session::Session;
use std::alloc::Global;
use std::marker::Model;
use std::ptr::null_mut;

/// A session on the heap, or nothing. The field's type doesn't mention `Vec`, because C may not
/// hold a pointer to one. Dropping an `Owner` frees nothing: the session has to be taken out first.
#[repr(C)]
#[derive(Drop)]
pub struct Owner {
    at: *mut (),
    pub ghost value: { Option SessionNow } by { coded_option session_coded },
}

impl Model for Owner {
    ghost also_owns = { λ o. owner_owns o.at o.value };
}

impl Owner {
    /// Returns an owner of nothing.
    pub fn empty() -> Owner
        ensures { result.value ≡ None }
    {
        Owner { at: null_mut() }
    }

    /// Returns an owner that takes this session over.
    pub fn of(session: Unboxed<Session>) -> Owner
        ensures { result.value ≡ Some session.value }
    {
        let Unboxed { at } = session;
        Owner { at: at as *mut () }
    }

    /// Returns the session in its box.
    pub fn into_box(self, alloc: Global) -> Box<Session>
        requires { IsSome self.value }
        ensures { self.value ≡ Some result.value }
    {
        let Owner { at } = self;
        unsafe { Box::from_raw(alloc, at as *mut Session) }
    }
}

// C may pass a session to another thread.
unsafe impl Send for Owner {}
