//! Tables: lists of statements that a pass can carry out.
ghost use Rattle.std.specs.Prelude.{◌≡◌, ◌+◌, ◌<◌, ◌^◌, ◌↔◌, IfOk, IfErr, IfSome, IsOk, MatchOption, length, slice_get};
ghost use Rattle.sei_stmt.specs.Table.{is_register, registers_fit, registers_at, HasRegisters, target, IsTarget, is_inside, jump_fits, JumpsInside, HasNext, is_halt, AllFit, IsFirstUnfit, IsTable, IsRefusedAs};
ghost use Rattle.sei_stmt.specs.declared.table.TableError.{TableError};

use super::Stmt;
use std::marker::Model;
use thiserror::Error;

/// What is wrong with a list of statements. The causes are tested in this order, each over the whole
/// list, and an index is that of the first statement at which it holds.
#[derive(Clone, Copy, Debug, PartialEq, Eq, Error)]
pub enum TableError {
    /// There is no statement.
    #[error("the table has no statements")]
    Empty,
    /// A statement names a register that is not below 32.
    #[error("statement {at} names a register that does not exist")]
    BadRegister { at: u64 },
    /// A jump goes to an index at which no statement is.
    #[error("statement {at} jumps out of the table")]
    JumpOut { at: u64 },
    /// The last statement is no `Halt`.
    #[error("the last statement is not Halt")]
    NoHalt,
}

/// How many registers there are.
const REGISTERS: u8 = 32;

fn is_register(r: u8) -> bool
    ensures { result ≡ is_register r }
{
    r < REGISTERS
}

/// Whether each register that the statement names is one.
fn has_registers(s: &Stmt) -> bool
    ensures { result ≡ registers_fit s.now }
{
    match *s {
        Stmt::Const { to, .. } => is_register(to),
        Stmt::Move { to, from } => is_register(to) && is_register(from),
        Stmt::Add { to, left, right } => is_register(to) && is_register(left) && is_register(right),
        Stmt::Sub { to, left, right } => is_register(to) && is_register(left) && is_register(right),
        Stmt::Input { to, index } => is_register(to) && is_register(index),
        Stmt::Load { to, address } => is_register(to) && is_register(address),
        Stmt::Store { address, from } => is_register(address) && is_register(from),
        Stmt::Emit { from } => is_register(from),
        Stmt::JumpEq { left, right, .. } => is_register(left) && is_register(right),
        Stmt::JumpLt { left, right, .. } => is_register(left) && is_register(right),
        Stmt::Now { to } => is_register(to),
        Stmt::Alloc { to, moment } => is_register(to) && is_register(moment),
        Stmt::Jump { .. } | Stmt::Parse | Stmt::Render | Stmt::Halt => true,
    }
}

/// The index to which a jump at the index `at` goes: `at + 1 + offset`.
pub fn target(at: u64, offset: i64) -> u64
    requires not_before { IsTarget at offset }
    requires small { target at offset < 2 ^ 64 }
    requires next { at + 1 < 2 ^ 64 }
    ensures { result ≡ target at offset }
{
    (at + 1).wrapping_add_signed(offset)
}

/// Whether a jump at the index `at` goes to one of `count` statements.
fn is_inside(count: u64, at: u64, offset: i64) -> bool
    requires { at < count }
    ensures { result ≡ is_inside count at offset }
{
    match (at + 1).checked_add_signed(offset) {
        Some(to) => to < count,
        None => false,
    }
}

/// Whether the statement at the index `at` of `count` is no jump, or one to a statement.
fn jumps_inside(count: u64, at: u64, s: &Stmt) -> bool
    requires { at < count }
    ensures { result ≡ jump_fits count at s.now }
{
    match *s {
        Stmt::Jump { offset } => is_inside(count, at, offset),
        Stmt::JumpEq { offset, .. } => is_inside(count, at, offset),
        Stmt::JumpLt { offset, .. } => is_inside(count, at, offset),
        _ => true,
    }
}

fn is_halt(s: &Stmt) -> bool
    ensures { result ≡ is_halt s.now }
{
    matches!(s, Stmt::Halt)
}

/// The index of the first statement that names a register which does not exist.
fn first_bad_register(stmts: &[Stmt]) -> Option<u64>
    ensures { MatchOption result (AllFit registers_at stmts.now) (λ at. IsFirstUnfit registers_at stmts.now at) }
{
    for (i, s) in stmts.iter().enumerate() {
        if !has_registers(s) {
            return Some(i as u64);
        }
    }
    None
}

/// The index of the first jump that goes to no statement.
fn first_jump_out(stmts: &[Stmt]) -> Option<u64>
    ensures { MatchOption result (AllFit (jump_fits (length stmts.now)) stmts.now) (λ at. IsFirstUnfit (jump_fits (length stmts.now)) stmts.now at) }
{
    for (i, s) in stmts.iter().enumerate() {
        if !jumps_inside(stmts.len() as u64, i as u64, s) {
            return Some(i as u64);
        }
    }
    None
}

/// Statements that a pass can carry out: each register and each jump target is there, and the last
/// statement is `Halt`. Its value is the list of the statements.
#[derive(Drop)]
pub struct Table {
    stmts: Vec<Stmt>,
}

impl Model for Table {
    ghost use Rattle.std.specs.Prelude.{List};
    ghost use Rattle.sei_stmt.specs.declared.stmt.Stmt.{Stmt};
    ghost use Rattle.sei_stmt.specs.Table.{IsTable};

    ghost Value = { List Stmt };

    ghost view = { λ t. t.stmts.items };

    ghost invariant = { λ t. IsTable t.stmts.items };
}

impl Table {
    /// The table of these statements, or the first of the causes for which they are none.
    pub fn new(stmts: Vec<Stmt>) -> Result<Table, TableError>
        ensures same { IfOk result (λ table. table ≡ stmts.items) }
        ensures valid { IsOk result ↔ IsTable stmts.items }
        ensures refused { IfErr result (λ e. IsRefusedAs stmts.items e) }
        ensures exact { (e : TableError) → IsRefusedAs stmts.items e → result ≡ Err e }
    {
        if stmts.is_empty() {
            return Err(TableError::Empty);
        }
        if let Some(at) = first_bad_register(&stmts) {
            return Err(TableError::BadRegister { at });
        }
        if let Some(at) = first_jump_out(&stmts) {
            return Err(TableError::JumpOut { at });
        }
        if !is_halt(&stmts[stmts.len() - 1]) {
            return Err(TableError::NoHalt);
        }
        Ok(Table { stmts })
    }

    /// How many statements there are.
    pub fn len(&self) -> u64
        ensures value { result ≡ length self.now }
        ensures small { length self.now < 2 ^ 63 }
        ensures table { IsTable self.now }
    {
        self.stmts.as_slice().len() as u64
    }

    /// The statement at the index `i`, counted from 0, or `None` if there are no more than `i`.
    pub fn get(&self, i: u64) -> Option<Stmt>
        ensures found { result ≡ slice_get self.now i }
        ensures fine { IfSome result (λ s. HasRegisters s) }
        // Its jump goes to a statement of the table.
        ensures inside { IfSome result (λ s. JumpsInside (length self.now) i s) }
        // Another statement than `Jump` and `Halt` is not the last one.
        ensures next { IfSome result (λ s. HasNext (length self.now) i s) }
        ensures below { IfSome result (λ _. i < length self.now) }
        ensures small { length self.now < 2 ^ 63 }
    {
        if i < self.len() {
            Some(self.stmts[i as usize])
        } else {
            None
        }
    }
}
