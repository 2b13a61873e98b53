//! The lines of a whole script.
ghost use Rattle.std.specs.Prelude.{◌≡◌, ◌<◌, Some, length, slice_get};

use super::line::ScriptLine;
use mc_model::Geometry;
use std::marker::Model;

/// The lines of a script in order, the geometry first and skipped ones left out.
#[derive(Drop)]
pub struct Script {
    geometry: Geometry,
    lines: Vec<ScriptLine>,
}

impl Model for Script {
    ghost use Rattle.std.specs.Prelude.{◌≡◌, List};
    ghost use Rattle.sei_script.specs.Context.{geometry_of};
    ghost use Rattle.sei_script.specs.declared.line.ScriptLine.{ScriptLine};

    ghost Value = { List ScriptLine };

    ghost view = { λ s. s.lines.items };

    ghost invariant = { λ s. s.geometry ≡ geometry_of s.lines.items };
}

impl Script {
    ghost use Rattle.sei_script.specs.Context.{geometry_of};

    pub fn new(geometry: Geometry, lines: Vec<ScriptLine>) -> Script
        requires { geometry ≡ geometry_of lines.items }
        ensures { result ≡ lines.items }
    {
        Script { geometry, lines }
    }

    pub fn geometry(&self) -> Geometry
        ensures { result ≡ geometry_of self.now }
    {
        self.geometry
    }

    pub fn lines(&self) -> &[ScriptLine]
        ensures { result.now ≡ self.now }
    {
        self.lines.as_slice()
    }

    /// How many lines it has.
    pub fn len(&self) -> u64
        ensures { result ≡ length self.now }
    {
        self.lines.len() as u64
    }

    /// The line with this number, from 0.
    pub fn line(&self, i: u64) -> &ScriptLine
        requires { i < length self.now }
        ensures { slice_get self.now i ≡ Some result.now }
    {
        &self.lines[i as usize]
    }
}
