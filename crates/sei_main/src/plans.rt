//! The faults that a script plans for traversals.
ghost use Rattle.std.specs.Prelude.{◌≡◌, IfOk, OnOk};
ghost use Rattle.sei_main.specs.Plans.{plans_of, plans_with, plan_at};

use sei_code::Memory;
use sei_fault::Planned;
use sei_script::{Script, ScriptLine};
use std::alloc::Global;
use std::collections::BTreeMap;
use std::marker::Model;

/// A call, or its traversal: the number of its connection, and its own number there. Both count from 0.
#[derive(Clone, Copy, Debug, PartialEq, Eq, PartialOrd, Ord)]
pub struct CallNumber {
    pub connection: u32,
    pub number: u64,
}

/// The faults that a script plans, each for one traversal. It stands for the list of them.
#[derive(Drop)]
pub struct Plans {
    planned: BTreeMap<CallNumber, Planned>,
}

impl Model for Plans {
    ghost use Rattle.std.specs.Prelude.{List};
    ghost use Rattle.sei_fault.specs.declared.plan.Planned.{Planned};
    ghost use Rattle.sei_main.specs.declared.plans.CallNumber.{CallNumber};

    ghost Value = { List (CallNumber × Planned) };

    ghost view = { λ p. p.planned.entries };
}

impl Plans {
    /// The faults that the lines of a script plan, wherever they stand. The error is that memory ran out.
    pub fn of(alloc: Global, script: &Script) -> Result<Plans, Memory>
        ensures { IfOk result (λ plans. plans ≡ plans_of script.now) }
    {
        let mut plans = Plans {
            planned: BTreeMap::new(alloc),
        };
        for line in script.lines() {
            plans.add(line)?;
        }
        Ok(plans)
    }

    fn add(&mut self, line: &ScriptLine) -> Result<(), Memory>
        ensures { OnOk result (self.new ≡ plans_with self.old line.now) }
    {
        match line {
            ScriptLine::Fault { c, t, plan } => {
                let number = CallNumber {
                    connection: *c,
                    number: *t,
                };
                self.planned.insert(number, *plan)?;
            }
            _ => {}
        }
        Ok(())
    }

    /// The fault that is planned for traversal number `number` of connection `c`, if one is.
    pub fn at(&self, c: u32, number: u64) -> Option<Planned>
        ensures { result ≡ plan_at self.now c number }
    {
        let key = CallNumber {
            connection: c,
            number,
        };
        self.planned.get(&key).copied()
    }
}
