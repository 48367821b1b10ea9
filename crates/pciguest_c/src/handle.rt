//! The handle through which C holds a session.
ghost use Rattle.std.specs.{Prelude.{◌≡◌, Some, None, IfSome, IfNone, Err, is_some}, Bool.OnFalse, Fn.FnOnceReturnsAtMut};
ghost use Rattle.model_handoff.specs.Changes.{MachineNow};
ghost use Rattle.model_lines.specs.Sessions.{DrivenNow};

use crate::owner::Owner;
use crate::unboxed::Unboxed;
use crate::values::numbers::NO_MACHINE;
use monitor::Monitor;
use session::{Board, Session};
use std::alloc::Global;
use std::mem::replace;

/// A session, or an empty handle. An empty handle is all zero bytes.
#[repr(C)]
#[derive(Drop)]
pub struct Handle {
    live: bool,
    owner: Owner,
    ghost flag: { live ≡ is_some owner.value },
}

impl Handle {
    ghost use Rattle.pciguest_c.specs.Handles.{session_of, machine_of, board_of};

    /// Returns an empty handle.
    fn none() -> Handle
        ensures { session_of result ≡ None }
    {
        Handle {
            live: false,
            owner: Owner::empty(),
        }
    }

    /// Returns a handle that contains a session.
    pub fn of(session: Box<Session>) -> Handle
        ensures { session_of result ≡ Some session.value }
    {
        Handle {
            live: true,
            owner: Owner::of(Unboxed::of(session)),
        }
    }

    /// Returns whether the handle contains a session.
    pub fn has_session(&self) -> bool
        ensures told { result ≡ is_some (session_of self.now) }
        ensures none { OnFalse result (session_of self.now ≡ None) }
    {
        self.live
    }

    /// Takes the session out and leaves the handle empty.
    pub fn take(&mut self, alloc: Global) -> Option<Box<Session>>
        ensures left { session_of self.new ≡ None }
        ensures session { IfSome result (λ b. session_of self.old ≡ Some b.value) }
        ensures nothing { IfNone result (session_of self.old ≡ None) }
    {
        let old = replace(self, Handle::none());
        if !old.live {
            return None;
        }
        Some(old.owner.into_box(alloc))
    }

    /// Calls a closure on the machine, or returns 901 if the handle doesn't contain one.
    pub fn with_machine<T, F: FnOnce(&mut Monitor) -> Result<T, u32>>(
        &mut self,
        alloc: Global,
        question: F,
    ) -> Result<T, u32>
        requires { F.IsAlwaysCallable question }
        ensures none { IfNone (machine_of self.old)
            ((result ≡ Err 901) × (session_of self.new ≡ session_of self.old)) }
        ensures asked { IfSome (machine_of self.old) (λ m. (after : MachineNow)
            × FnOnceReturnsAtMut F.FnOnce question m result after
            × (machine_of self.new ≡ Some after)) }
        ensures kept { machine_of self.new ≡ machine_of self.old →
            session_of self.new ≡ session_of self.old }
    {
        let Some(mut session) = self.take(alloc) else {
            return Err(NO_MACHINE);
        };
        let Some(machine) = session.monitor() else {
            *self = Handle::of(session);
            return Err(NO_MACHINE);
        };
        let answer = question(machine);
        *self = Handle::of(session);
        answer
    }

    /// Calls a closure on the board that firmware drives, or returns 901 if the handle doesn't
    /// contain one.
    pub fn with_board<T, F: FnOnce(&mut Board) -> Result<T, u32>>(
        &mut self,
        alloc: Global,
        question: F,
    ) -> Result<T, u32>
        requires { F.IsAlwaysCallable question }
        ensures none { IfNone (board_of self.old)
            ((result ≡ Err 901) × (session_of self.new ≡ session_of self.old)) }
        ensures asked { IfSome (board_of self.old) (λ b. (after : DrivenNow)
            × FnOnceReturnsAtMut F.FnOnce question b result after
            × (board_of self.new ≡ Some after)) }
        ensures kept { board_of self.new ≡ board_of self.old →
            session_of self.new ≡ session_of self.old }
    {
        let Some(mut session) = self.take(alloc) else {
            return Err(NO_MACHINE);
        };
        let Some(board) = session.board() else {
            *self = Handle::of(session);
            return Err(NO_MACHINE);
        };
        let answer = question(board);
        *self = Handle::of(session);
        answer
    }
}
