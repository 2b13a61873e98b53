//! What the acts of a traversal work on.
ghost use Rattle.std.specs.Prelude.{◌≡◌, IfOk};
ghost use Rattle.mc_model.specs.Server.{IsValid};
ghost use Rattle.sei_code.specs.Kept.{empty_kept};
ghost use Rattle.sei_log.specs.declared.log.Change.{Change};
ghost use Rattle.sei_pass.specs.Spaces.{pass_space};
ghost use Rattle.sei_pass.specs.State.{new_pass};
ghost use Rattle.sei_traverse.specs.Acts.{closes};
ghost use Rattle.sei_traverse.specs.State.{begun_workspace, unsealed};
ghost use Rattle.sei_traverse.specs.Work.{ActsAlone};
ghost use Rattle.sei_traverse.specs.Workspaces.{IsWorkspace, Stays};

use crate::turned::Want;
use mc_model::Geometry;
use sei_code::{Buffer, Coded, Memory};
use sei_fault::{AbortCause, Core, Phase, Place};
use sei_gate::Gate;
use sei_log::{Notes, WriteLog};
use sei_pass::{Pass, PassSpace, Sealed};
use std::alloc::Global;

/// The notes of a traversal that has asked for nothing yet.
pub const NO_NOTES: Notes = Notes {
    now: None,
    slot: None,
};

/// How an act ends.
#[derive(Clone, Copy, Debug, PartialEq, Eq)]
pub enum Ending {
    /// The traversal goes on; this is the honest next place.
    Leads(Place),
    /// The traversal is refused.
    Refuses,
    /// The traversal aborts.
    Aborts(AbortCause),
}

/// What the acts of a traversal work on.
#[derive(Drop)]
pub struct Workspace {
    pub sealed: Sealed,
    pub place: Place,
    pub gate: Gate,
    /// The bucket that is wanted.
    pub wanted: u64,
    /// What this step wants.
    pub want: Want,
    pub first: Pass,
    pub second: Pass,
    pub first_log: WriteLog,
    pub second_log: WriteLog,
    pub notes: Notes,
    /// The copy for the wire.
    pub wire: Buffer,
}

/// The logs of both passes, with nothing in them.
fn logs(alloc: Global, space: &PassSpace) -> Result<(WriteLog, WriteLog), Memory>
    ensures { IfOk result (λ logs. (logs.0 ≡ empty_kept Change space.now.log) × (logs.1 ≡ empty_kept Change space.now.log)) }
{
    let first = WriteLog::new(alloc, space.log as usize)?;
    let second = WriteLog::new(alloc, space.log as usize)?;
    Ok((first, second))
}

/// Both passes, before their first statements.
fn passes(alloc: Global, g: &Geometry) -> Result<(Pass, Pass), Memory>
    requires { IsValid g.now }
    ensures { IfOk result (λ passes. (passes.0 ≡ new_pass (pass_space g.now)) × (passes.1 ≡ new_pass (pass_space g.now))) }
{
    let first = Pass::new(alloc, g)?;
    let second = Pass::new(alloc, g)?;
    Ok((first, second))
}

impl Workspace {
    /// Of a call that is not sealed yet, with the room that each call of this geometry needs.
    pub fn new(alloc: Global, g: &Geometry) -> Result<Workspace, Memory>
        requires { IsValid g.now }
        ensures workspace { IfOk result IsWorkspace }
        ensures space { IfOk result (λ workspace. workspace.first.space ≡ pass_space g.now) }
        ensures fresh { IfOk result (λ workspace. workspace ≡ begun_workspace (pass_space g.now) unsealed) }
    {
        let space = PassSpace::new(g, g.value_words);
        let (first_log, second_log) = logs(alloc, &space)?;
        let wire = Buffer::new(alloc, space.bytes as usize)?;
        let (first, second) = passes(alloc, g)?;
        Ok(Workspace {
            sealed: Sealed {
                number: 0,
                nth: Coded::seal(0),
                code: 0,
                answer: 0,
            },
            place: Place {
                phase: Phase::Guard,
                index: 0,
            },
            gate: Gate::new(),
            wanted: 0,
            want: Want::Nothing,
            first,
            second,
            first_log,
            second_log,
            notes: NO_NOTES,
            wire,
        })
    }

    /// Closes the phase, and leads to `to` with this want.
    pub fn close<K: Core>(&mut self, phase: Phase, want: Want, to: Place, core: &mut K) -> Ending
        ensures act { ActsAlone K.gives (λ w words. closes phase w words want to) self.old core.old self.new core.new result }
        ensures stays { Stays self.old self.new }
        ensures place { self.new.place ≡ self.old.place }
    {
        if self.gate.complete(core, phase) {
            self.want = want;
            Ending::Leads(to)
        } else {
            Ending::Aborts(AbortCause::Gate {
                done: self.gate.done,
            })
        }
    }
}
