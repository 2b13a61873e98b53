//! The acts after the last comparison: each only closes its phase.
ghost use Rattle.std.specs.Prelude.{◌≡◌};
ghost use Rattle.sei_traverse.specs.Phases.{send_want, closing_want, closing_place, closing_tree};
ghost use Rattle.sei_traverse.specs.Work.{ActsAlone};
ghost use Rattle.sei_traverse.specs.Workspaces.{Stays};

use crate::stepping::next_phase;
use crate::turned::Want;
use crate::workspace::{Ending, Workspace};
use sei_fault::{Core, Phase, Place};

/// What is wanted for a reply: one that is empty is not sent.
fn send_want(reply: &[u8]) -> Want
    ensures { result ≡ send_want reply.now }
{
    if reply.is_empty() {
        Want::Nothing
    } else {
        Want::Send
    }
}

/// Where a closed phase leads: to the next one, and the last one to the end.
fn closing_place(phase: Phase) -> Place
    ensures { result ≡ closing_place phase }
{
    match phase {
        Phase::Done => Place { phase, index: 1 },
        Phase::Guard | Phase::Take | Phase::First | Phase::Restore | Phase::Second => Place {
            phase: next_phase(phase),
            index: 0,
        },
        Phase::Compare | Phase::Verify | Phase::Enter | Phase::Give | Phase::Send => Place {
            phase: next_phase(phase),
            index: 0,
        },
    }
}

impl Workspace {
    /// What is wanted where a phase is closed.
    fn closing_want(&self, phase: Phase) -> Want
        ensures { result ≡ closing_want self.now phase }
    {
        match phase {
            Phase::Take => Want::Take {
                bucket: self.wanted,
            },
            Phase::Enter => Want::Enter,
            Phase::Give => Want::Give,
            Phase::Send => send_want(self.second.bytes()),
            Phase::Guard | Phase::First | Phase::Restore | Phase::Second => Want::Nothing,
            Phase::Compare | Phase::Verify | Phase::Done => Want::Nothing,
        }
    }

    /// Closes a phase with its want, and leads on.
    pub fn close_only<K: Core>(&mut self, phase: Phase, core: &mut K) -> Ending
        ensures act { ActsAlone K.gives (closing_tree phase) self.old core.old self.new core.new result }
        ensures stays { Stays self.old self.new }
        ensures place { self.new.place ≡ self.old.place }
    {
        let want = self.closing_want(phase);
        self.close(phase, want, closing_place(phase), core)
    }
}
