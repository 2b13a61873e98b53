//! What a statement does, as far as a planned fault may select by it.
ghost use Rattle.std.specs.Prelude.{◌≡◌};
ghost use Rattle.sei_stmt.specs.Table.{HasRegisters};
ghost use Rattle.sei_pass.specs.Acts.{act_of};

use crate::frame::Frame;
use sei_fault::Act;
use sei_stmt::Stmt;

impl Frame {
    /// The act of the statement. An address is what its register holds.
    #[inline(always)]
    pub fn act(&self, statement: Stmt) -> Act
        requires { HasRegisters statement }
        ensures { result ≡ act_of self.now.registers statement }
    {
        match statement {
            Stmt::Load { address, .. } => Act::Load(self.registers[address as usize]),
            Stmt::Store { address, .. } => Act::Store(self.registers[address as usize]),
            Stmt::Now { .. } => Act::Now,
            Stmt::Alloc { .. } => Act::Alloc,
            Stmt::Parse => Act::Parse,
            Stmt::Render => Act::Render,
            Stmt::Halt => Act::Halt,
            Stmt::Const { .. } | Stmt::Move { .. } | Stmt::Add { .. } | Stmt::Sub { .. } =>
                Act::Plain,
            Stmt::Input { .. } | Stmt::Emit { .. } => Act::Plain,
            Stmt::Jump { .. } | Stmt::JumpEq { .. } | Stmt::JumpLt { .. } => Act::Plain,
        }
    }
}
