//! A line of a script, what a text line says, and what the lines before it tell of it.
ghost use Rattle.std.specs.Prelude.{◌≡◌, ◌<◌, ◌^◌, ◌-◌};

use super::text::Text;
use mc_model::Geometry;
use sei_code::Mode;
use sei_fault::Planned;

/// The most connections that a script may open.
pub const CONNECTIONS: u32 = 1;

/// A line of a script. Connections are numbered from 0 in the order in which they are opened.
#[derive(Drop)]
pub enum ScriptLine {
    /// How large the server is.
    Geometry { g: Geometry },
    /// Opens a connection; its mode is plain, the one that a script can spell.
    Open { c: u32, mode: Mode },
    /// Feeds bytes to a connection.
    Say { c: u32, bytes: Text },
    /// Feeds bytes that are written as hexadecimal digits to a connection.
    Hex { c: u32, bytes: Text },
    /// Serves until no connection has anything left to do.
    Drain,
    /// What the clock answers from here on, in seconds since the start of 1970.
    Clock { now: u64 },
    /// Plans a fault for the traversal of a connection with this number, from 0.
    Fault { c: u32, t: u64, plan: Planned },
}

/// Why a line does not read. Of several causes of one line the one that stands first here is told;
/// `TooBig` is told of the whole script, before all lines.
#[derive(Clone, Copy, Debug, PartialEq, Eq)]
pub enum Why {
    /// The last line has no LF.
    UnfinishedLine,
    /// Another line, or the end, stands where the geometry has to.
    GeometryMissing,
    /// The word before the first space is no kind of line.
    UnknownLine,
    /// The words, a number or an escape, or a second geometry.
    BadLine,
    GeometryOutOfLimits,
    /// A connection of `CONNECTIONS` or more is opened.
    TooManyConnections,
    /// Another connection than the next is opened.
    WrongNumber,
    /// The connection is not open.
    UnknownConnection,
    /// An earlier line plans a fault for this traversal.
    SecondFault,
    /// The script has more than `LIMIT` bytes; told of line 0.
    TooBig,
}

/// What a line says.
#[derive(Drop)]
pub enum Said {
    Nothing,
    Line(ScriptLine),
    Wrong(Why),
}

/// What the lines before a line tell of it: the geometry, and how many connections are open.
#[derive(Clone, Copy)]
pub struct Context {
    pub geometry: Option<Geometry>,
    pub opens: u32,
}

impl Context {
    ghost use Rattle.sei_script.specs.Context.{empty_context, context_after};

    /// Before the first line.
    pub fn empty() -> Context
        ensures { result ≡ empty_context }
    {
        Context {
            geometry: None,
            opens: 0,
        }
    }

    /// Behind this line too.
    pub fn after(self, line: &ScriptLine) -> Context
        requires { self.opens < 2 ^ 32 - 1 }
        ensures { result ≡ context_after self line.now }
    {
        match line {
            ScriptLine::Geometry { g } => Context {
                geometry: Some(*g),
                ..self
            },
            ScriptLine::Open { .. } => Context {
                opens: self.opens + 1,
                ..self
            },
            _ => self,
        }
    }
}
