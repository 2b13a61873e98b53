//! What the definitions of a run say of one call.
ghost use Rattle.mc_model.specs.declared.geometry.Geometry.{Geometry};
ghost use Rattle.mc_model.specs.Server.{IsValid, empty_server};
ghost use Rattle.sei_main.specs.Tables.{AreServerOf, fresh_tables};
ghost use Rattle.sei_main.specs.TableAnswers.{table_answering};
ghost use Rattle.sei_main.specs.Outcomes.{IsolatesFaults};

/// A new server of words stands for the empty server. If words stand for a server, a call does as the
/// plain server does; or a fault that was planned for it struck, and it is refused with nothing changed,
/// or aborts and has entered and sent nothing but what the plain server would.
pub fn a_fault_stays_in_its_call()
    ensures fresh { (g : Geometry) → IsValid g → AreServerOf g (fresh_tables g) (empty_server g) }
    ensures isolates { (g : Geometry) → IsValid g → IsolatesFaults table_answering g (AreServerOf g) }
{}
