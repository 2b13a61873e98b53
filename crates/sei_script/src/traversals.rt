//! The traversals for which a fault is planned.
ghost use Rattle.std.specs.Prelude.{◌≡◌, ◌||◌, ℕ, OnOk, false};
ghost use Rattle.sei_script.specs.Faults.{plans, is_second, once_by, holds};

use super::line::{Said, ScriptLine, Why};
use std::alloc::{AllocError, Global};
use std::collections::BTreeSet;

/// A traversal of a connection.
#[derive(Clone, Copy, PartialEq, Eq, PartialOrd, Ord)]
struct Traversal {
    c: u32,
    t: u64,
}

/// The traversals for which a fault is planned.
#[derive(Drop)]
pub struct Traversals {
    planned: BTreeSet<Traversal>,
}

impl Traversals {
    /// No fault is planned yet.
    pub fn new(alloc: Global) -> Traversals
        ensures { (c : ℕ) (t : ℕ) → holds result c t ≡ false }
    {
        Traversals {
            planned: BTreeSet::new(alloc),
        }
    }

    /// Whether a line plans a second fault for its traversal.
    fn is_second(&self, said: &Said) -> bool
        ensures { result ≡ is_second (holds self.now) said.now }
    {
        match said {
            Said::Line(ScriptLine::Fault { c, t, .. }) => {
                self.planned.contains(&Traversal { c: *c, t: *t })
            }
            _ => false,
        }
    }

    /// What a line says, if a second fault of a traversal is wrong.
    pub fn once(&self, said: Said) -> Said
        ensures { result ≡ once_by (holds self.now) said }
    {
        if self.is_second(&said) {
            Said::Wrong(Why::SecondFault)
        } else {
            said
        }
    }

    /// This line is read too. The error is that memory ran out.
    pub fn add(&mut self, line: &ScriptLine) -> Result<(), AllocError>
        ensures { OnOk result ((c : ℕ) (t : ℕ) → holds self.new c t ≡ (holds self.old c t || plans c t line.now)) }
    {
        match line {
            ScriptLine::Fault { c, t, .. } => {
                self.planned.insert(Traversal { c: *c, t: *t })?;
            }
            _ => {}
        }
        Ok(())
    }
}
