//! Statements that several programs use.
ghost use Rattle.std.specs.Prelude.{◌≡◌};
ghost use Rattle.sei_stmt.specs.declared.stmt.Stmt.TheVariants as stmt;

use crate::registers::{ADDRESS, INDEX, ONE};
use sei_stmt::Stmt;

/// The address rises by one.
pub const NEXT_ADDRESS: Stmt = Stmt::Add {
    to: ADDRESS,
    left: ADDRESS,
    right: ONE,
};

/// The index of the input word rises by one.
pub const NEXT_INDEX: Stmt = Stmt::Add {
    to: INDEX,
    left: INDEX,
    right: ONE,
};

pub fn set(to: u8, number: u64) -> Stmt
    ensures { result ≡ stmt.Const to number }
{
    Stmt::Const { to, number }
}

pub fn copy(to: u8, from: u8) -> Stmt
    ensures { result ≡ stmt.Move to from }
{
    Stmt::Move { to, from }
}

pub fn add(to: u8, left: u8, right: u8) -> Stmt
    ensures { result ≡ stmt.Add to left right }
{
    Stmt::Add { to, left, right }
}

pub fn subtract(to: u8, left: u8, right: u8) -> Stmt
    ensures { result ≡ stmt.Sub to left right }
{
    Stmt::Sub { to, left, right }
}

pub fn input(to: u8, index: u8) -> Stmt
    ensures { result ≡ stmt.Input to index }
{
    Stmt::Input { to, index }
}

pub fn load(to: u8, address: u8) -> Stmt
    ensures { result ≡ stmt.Load to address }
{
    Stmt::Load { to, address }
}

pub fn store(address: u8, from: u8) -> Stmt
    ensures { result ≡ stmt.Store address from }
{
    Stmt::Store { address, from }
}
