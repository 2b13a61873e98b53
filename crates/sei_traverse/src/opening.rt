//! The acts before the first pass.
ghost use Rattle.std.specs.Prelude.{◌≡◌, ℕ, Option};
ghost use Rattle.sei_pass.specs.declared.spaces.PassSpace.{PassSpace};
ghost use Rattle.sei_code.specs.Coded.{read_of};
ghost use Rattle.sei_stmt.specs.Handling.{parsed_bucket};
ghost use Rattle.sei_pass.specs.Setting.{sealed_call};
ghost use Rattle.sei_traverse.specs.Given.{given_of, has_call, bucket_or_zero};
ghost use Rattle.sei_traverse.specs.Phases.{guard_call, guard_tree, store_wanted, take_closing, take_tree};
ghost use Rattle.sei_traverse.specs.Work.{ActsAlone};
ghost use Rattle.sei_traverse.specs.Workspaces.{Stays};

use crate::turned::Want;
use crate::workspace::{Ending, Workspace};
use mc_model::Geometry;
use sei_code::{Coded, message_code};
use sei_fault::{AbortCause, Core, Phase, Place};
use sei_pass::PassSpace;
use sei_stmt::Handler;

/// Whether the input is one whole request that has this call.
fn has_call<H: Handler>(hands: &H, input: &[u8], nth: Coded) -> bool
    ensures { result ≡ has_call ((H.behavior hands.now).calls input.now) (read_of nth) }
{
    match hands.calls(input) {
        None => false,
        Some(calls) => match nth.read() {
            None => false,
            Some(nth) => nth < calls,
        },
    }
}

/// The bucket of this call, or 0 if the input has no such call.
fn bucket_of_call<H: Handler>(hands: &H, input: &[u8], nth: Coded) -> u64
    ensures { result ≡ bucket_or_zero (parsed_bucket (sealed_call ((H.behavior hands.now).parsed input.now) nth)) }
{
    match nth.read() {
        None => 0,
        Some(nth) => match hands.bucket(input, nth) {
            None => 0,
            Some(bucket) => bucket,
        },
    }
}

impl Workspace {
    /// Guard.
    pub fn guard<H: Handler, K: Core>(&mut self, hands: &H, input: &[u8], core: &mut K) -> Ending
        ensures act { (space : PassSpace) (lent : Option ℕ) →
            ActsAlone K.gives (guard_tree (given_of (H.behavior hands.now) input.now space lent)) self.old core.old self.new core.new result }
        ensures stays { Stays self.old self.new }
        ensures place { self.new.place ≡ self.old.place }
    {
        if core.test(message_code(self.sealed.number, input) == self.sealed.code) {
            self.guard_call(hands, input, core)
        } else {
            Ending::Refuses
        }
    }

    /// Guard, after the test of the input's code.
    fn guard_call<H: Handler, K: Core>(&mut self, hands: &H, input: &[u8], core: &mut K) -> Ending
        ensures act { (space : PassSpace) (lent : Option ℕ) →
            ActsAlone K.gives (guard_call (given_of (H.behavior hands.now) input.now space lent)) self.old core.old self.new core.new result }
        ensures stays { Stays self.old self.new }
        ensures place { self.new.place ≡ self.old.place }
    {
        if core.test(has_call(hands, input, self.sealed.nth)) {
            self.close(
                Phase::Guard,
                Want::Nothing,
                Place {
                    phase: Phase::Take,
                    index: 0,
                },
                core,
            )
        } else {
            Ending::Refuses
        }
    }

    /// Take 0.
    fn want_bucket<H: Handler, K: Core>(&mut self, hands: &H, input: &[u8], core: &mut K) -> Ending
        ensures act { (space : PassSpace) (lent : Option ℕ) →
            ActsAlone K.gives (store_wanted (given_of (H.behavior hands.now) input.now space lent)) self.old core.old self.new core.new result }
        ensures stays { Stays self.old self.new }
        ensures place { self.new.place ≡ self.old.place }
    {
        let bucket = core.value(bucket_of_call(hands, input, self.sealed.nth));
        self.wanted = core.written(bucket);
        Ending::Leads(Place {
            phase: Phase::Take,
            index: 1,
        })
    }

    /// Take 1.
    fn take_bucket<K: Core>(&mut self, g: &Geometry, core: &mut K) -> Ending
        ensures act { ActsAlone K.gives (take_closing g.now) self.old core.old self.new core.new result }
        ensures stays { Stays self.old self.new }
        ensures place { self.new.place ≡ self.old.place }
    {
        if self.gate.complete(core, Phase::Take) {
            if self.wanted < g.buckets {
                self.want = Want::Take {
                    bucket: self.wanted,
                };
                Ending::Leads(Place {
                    phase: Phase::First,
                    index: 0,
                })
            } else {
                Ending::Aborts(AbortCause::Range {
                    address: self.wanted,
                })
            }
        } else {
            Ending::Aborts(AbortCause::Gate {
                done: self.gate.done,
            })
        }
    }

    /// Take.
    pub fn take<H: Handler, K: Core>(
        &mut self,
        hands: &H,
        input: &[u8],
        space: &PassSpace,
        core: &mut K,
    ) -> Ending
        ensures act { (lent : Option ℕ) →
            ActsAlone K.gives (take_tree (given_of (H.behavior hands.now) input.now space.now lent) self.old.place.index) self.old core.old self.new core.new result }
        ensures stays { Stays self.old self.new }
        ensures place { self.new.place ≡ self.old.place }
    {
        if self.place.index == 0 {
            self.want_bucket(hands, input, core)
        } else {
            self.take_bucket(&space.geometry, core)
        }
    }
}
