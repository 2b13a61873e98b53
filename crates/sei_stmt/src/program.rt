//! Programs with structure, and the statements that they stand for.
ghost use Rattle.std.specs.Prelude.{◌≡◌, ◌+◌, ◌<◌, ◌^◌, [], ◌∷◌, ◌++◌, length, map, take, drop, pos, IfOk, OnOk};
ghost use Rattle.sei_stmt.specs.Programs as programs;
ghost use Rattle.sei_stmt.specs.Written.{prog_of};
ghost use Rattle.sei_stmt.specs.declared.stmt.Stmt.TheVariants.{Const, JumpEq, JumpLt};

use crate::stmt::Stmt;
use sei_code::Memory;
use std::alloc::{AllocError, Global};
use std::marker::Model;

/// Statements that are carried out one after another. Its value is the list of them.
#[derive(Drop)]
pub struct Statements {
    stmts: Vec<Stmt>,
}

impl Model for Statements {
    ghost use Rattle.std.specs.Prelude.{List};
    ghost use Rattle.sei_stmt.specs.declared.stmt.Stmt.{Stmt};

    ghost Value = { List Stmt };

    ghost view = { λ s. s.stmts.items };
}

/// A part of a table by its structure, with no jump written out.
#[derive(Drop)]
pub enum Program {
    /// Statements with no jump and no `Halt`.
    Block(Statements),
    /// The first program, and then the second.
    Seq(Box<Program>, Box<Program>),
    /// One of two programs, by whether both registers hold the same.
    IfEq {
        left: u8,
        right: u8,
        yes: Box<Program>,
        no: Box<Program>,
    },
    /// One of two programs, by whether the left register holds less.
    IfLt {
        left: u8,
        right: u8,
        yes: Box<Program>,
        no: Box<Program>,
    },
    /// The program, and again while the left register holds less.
    RepeatLt {
        left: u8,
        right: u8,
        body: Box<Program>,
    },
}

/// Each error is out of memory.
impl Program {
    /// These statements. No jump and no `Halt` is among them.
    pub fn block(alloc: Global, stmts: &[Stmt]) -> Result<Program, Memory>
        ensures { IfOk result (λ p. prog_of p ≡ programs.Block stmts.now) }
    {
        let mut list = Vec::new(alloc);
        list.extend_from_slice(stmts)?;
        Ok(Program::Block(Statements { stmts: list }))
    }

    /// The program with no statement, which takes no memory.
    pub fn empty(alloc: Global) -> Program
        ensures { prog_of result ≡ programs.Block [] }
    {
        Program::Block(Statements {
            stmts: Vec::new(alloc),
        })
    }

    /// This program, and then the next.
    pub fn then(self, alloc: Global, next: Program) -> Result<Program, Memory>
        ensures { IfOk result (λ p. prog_of p ≡ programs.Seq (prog_of self) (prog_of next)) }
    {
        let first = Box::new(alloc, self)?;
        let second = Box::new(alloc, next)?;
        Ok(Program::Seq(first, second))
    }

    /// `yes` if both registers hold the same, else `no`.
    pub fn if_eq(
        alloc: Global,
        left: u8,
        right: u8,
        yes: Program,
        no: Program,
    ) -> Result<Program, Memory>
        ensures { IfOk result (λ p. prog_of p ≡ programs.IfEq left right (prog_of yes) (prog_of no)) }
    {
        let yes = Box::new(alloc, yes)?;
        let no = Box::new(alloc, no)?;
        Ok(Program::IfEq {
            left,
            right,
            yes,
            no,
        })
    }

    /// `yes` if the left register holds less, else `no`.
    pub fn if_lt(
        alloc: Global,
        left: u8,
        right: u8,
        yes: Program,
        no: Program,
    ) -> Result<Program, Memory>
        ensures { IfOk result (λ p. prog_of p ≡ programs.IfLt left right (prog_of yes) (prog_of no)) }
    {
        let yes = Box::new(alloc, yes)?;
        let no = Box::new(alloc, no)?;
        Ok(Program::IfLt {
            left,
            right,
            yes,
            no,
        })
    }

    /// `body`, and again while the left register holds less.
    pub fn repeat_lt(alloc: Global, left: u8, right: u8, body: Program) -> Result<Program, Memory>
        ensures { IfOk result (λ p. prog_of p ≡ programs.RepeatLt left right (prog_of body)) }
    {
        let body = Box::new(alloc, body)?;
        Ok(Program::RepeatLt { left, right, body })
    }

    /// One of the programs, by what register `v` holds: the first for 0, and none for a number that has no
    /// program. There are `2 ^ depth` numbers, and a larger one chooses as the last of them does. Register
    /// `t` gets the numbers that are compared.
    pub fn halves(
        alloc: Global,
        depth: u32,
        v: u8,
        t: u8,
        options: Vec<Program>,
    ) -> Result<Program, Memory>
        requires { depth < 63 }
        ensures { IfOk result (λ p. prog_of p ≡ programs.halves depth v t 0 (map prog_of options.items)) }
    {
        Self::halves_from(alloc, depth, v, t, 0, options)
    }

    /// The same, if the first program is for the number `low`.
    fn halves_from(
        alloc: Global,
        depth: u32,
        v: u8,
        t: u8,
        low: u64,
        mut options: Vec<Program>,
    ) -> Result<Program, Memory>
        requires { low + 2 ^ depth < 2 ^ 64 }
        ensures { IfOk result (λ p. prog_of p ≡ programs.halves depth v t low (map prog_of options.items)) }
    {
        if depth == 0 {
            return match options.into_iter().next() {
                Some(p) => Ok(p),
                None => Ok(Program::empty(alloc)),
            };
        }
        let half = 2u64.pow(depth - 1);
        let high = low + half;
        let later = split(alloc, &mut options, half)?;
        let below = Self::halves_from(alloc, depth - 1, v, t, low, options)?;
        let above = Self::halves_from(alloc, depth - 1, v, t, high, later)?;
        Self::split_at(alloc, v, t, high, below, above)
    }

    /// `below` if register `v` holds less than the number, else `above`. Register `t` gets the number.
    fn split_at(
        alloc: Global,
        v: u8,
        t: u8,
        number: u64,
        below: Program,
        above: Program,
    ) -> Result<Program, Memory>
        ensures { IfOk result (λ p. prog_of p ≡ programs.Seq (programs.Block (Const t number ∷ [])) (programs.IfLt v t (prog_of below) (prog_of above))) }
    {
        let choice = Program::if_lt(alloc, v, t, below, above)?;
        let bound = Program::block(alloc, &[Stmt::Const { to: t, number }])?;
        bound.then(alloc, choice)
    }

    /// The statements, with their jumps. They mean the same wherever they are placed.
    pub fn flatten(&self, alloc: Global) -> Result<Vec<Stmt>, Memory>
        ensures { IfOk result (λ stmts. stmts.items ≡ programs.flatten (prog_of self.now)) }
    {
        self.code(alloc, 0)
    }

    /// The statements, after which the run goes on `exit` statements after their end.
    fn code(&self, alloc: Global, exit: usize) -> Result<Vec<Stmt>, Memory>
        ensures { IfOk result (λ stmts. stmts.items ≡ programs.code (prog_of self.now) exit) }
    {
        match self {
            Program::Block(block) => {
                let mut stmts = Vec::new(alloc);
                stmts.extend_from_slice(&block.stmts)?;
                hop(&mut stmts, exit)?;
                Ok(stmts)
            }
            Program::Seq(first, second) => {
                let mut stmts = first.code(alloc, 0)?;
                let rest = second.code(alloc, exit)?;
                stmts.extend_from_slice(&rest)?;
                Ok(stmts)
            }
            Program::IfEq {
                left,
                right,
                yes,
                no,
            } => {
                let yes = yes.code(alloc, exit)?;
                let no = no.code(alloc, over(yes.len(), exit)?)?;
                sides(alloc, jump_eq(*left, *right, &no), &no, &yes)
            }
            Program::IfLt {
                left,
                right,
                yes,
                no,
            } => {
                let yes = yes.code(alloc, exit)?;
                let no = no.code(alloc, over(yes.len(), exit)?)?;
                sides(alloc, jump_lt(*left, *right, &no), &no, &yes)
            }
            Program::RepeatLt { left, right, body } => {
                let body = body.code(alloc, 0)?;
                let mut stmts = looped(alloc, *left, *right, &body)?;
                hop(&mut stmts, exit)?;
                Ok(stmts)
            }
        }
    }
}

/// Leaves the first `count` programs, and answers the others.
fn split(alloc: Global, programs: &mut Vec<Program>, count: u64) -> Result<Vec<Program>, Memory>
    ensures kept { OnOk result (programs.new.items ≡ take count programs.old.items) }
    ensures others { IfOk result (λ rest. rest.items ≡ drop count programs.old.items) }
{
    if programs.len() as u64 <= count {
        return Ok(Vec::new(alloc));
    }
    programs.split_off(count as usize)
}

/// The sum. No list has more statements than a number counts, so one that does not fit is out of memory.
fn over(count: usize, exit: usize) -> Result<usize, Memory>
    ensures { IfOk result (λ n. n ≡ count + exit) }
{
    match count.checked_add(exit) {
        Some(n) => Ok(n),
        None => Err(AllocError),
    }
}

/// The offset of a jump over these statements.
fn offset_over(stmts: &[Stmt]) -> i64
    ensures { result ≡ pos (length stmts.now) }
{
    stmts.len() as i64
}

/// A jump over these statements if both registers hold the same.
fn jump_eq(left: u8, right: u8, stmts: &[Stmt]) -> Stmt
    ensures { result ≡ JumpEq left right (pos (length stmts.now)) }
{
    let offset = offset_over(stmts);
    Stmt::JumpEq {
        left,
        right,
        offset,
    }
}

/// A jump over these statements if the left register holds less.
fn jump_lt(left: u8, right: u8, stmts: &[Stmt]) -> Stmt
    ensures { result ≡ JumpLt left right (pos (length stmts.now)) }
{
    let offset = offset_over(stmts);
    Stmt::JumpLt {
        left,
        right,
        offset,
    }
}

/// Appends a jump over `exit` statements, if there are any.
fn hop(into: &mut Vec<Stmt>, exit: usize) -> Result<(), Memory>
    ensures { OnOk result (into.new.items ≡ into.old.items ++ programs.hop exit) }
{
    if exit == 0 {
        return Ok(());
    }
    match i64::try_from(exit) {
        Ok(offset) => {
            into.push(Stmt::Jump { offset })?;
            Ok(())
        }
        Err(_) => Err(AllocError),
    }
}

/// A test, and the two sides of a choice.
fn sides(alloc: Global, test: Stmt, no: &[Stmt], yes: &[Stmt]) -> Result<Vec<Stmt>, Memory>
    ensures { IfOk result (λ stmts. stmts.items ≡ test ∷ (no.now ++ yes.now)) }
{
    let mut stmts = vec![in alloc; test]?;
    stmts.extend_from_slice(no)?;
    stmts.extend_from_slice(yes)?;
    Ok(stmts)
}

/// A loop with this body.
fn looped(alloc: Global, left: u8, right: u8, body: &[Stmt]) -> Result<Vec<Stmt>, Memory>
    ensures { IfOk result (λ stmts. stmts.items ≡ programs.looped left right body.now) }
{
    let mut stmts = Vec::new(alloc);
    stmts.extend_from_slice(body)?;
    stmts.push(Stmt::JumpLt {
        left,
        right,
        offset: -offset_over(body) - 1,
    })?;
    Ok(stmts)
}

#[cfg(test)]
mod tests {
    use super::*;
    use crate::Fragment;
    use std::test::Fail;

    const FIRST: Stmt = Stmt::Move { to: 1, from: 2 };

    const SECOND: Stmt = Stmt::Emit { from: 3 };

    fn same(offset: i64) -> Stmt {
        Stmt::JumpEq {
            left: 4,
            right: 5,
            offset,
        }
    }

    fn less(offset: i64) -> Stmt {
        Stmt::JumpLt {
            left: 6,
            right: 7,
            offset,
        }
    }

    #[test]
    fn an_empty_side_has_no_jump(rt: HostRuntime) -> Result<(), Fail> {
        let alloc = rt.alloc();
        let no = Program::block(alloc, &[SECOND, SECOND])?;
        let no_yes = Program::if_eq(alloc, 4, 5, Program::empty(alloc), no)?;
        assert_eq!(rt;
            no_yes.flatten(alloc)?.as_slice(),
            [same(2), SECOND, SECOND].as_slice()
        );
        let yes = Program::block(alloc, &[FIRST])?;
        let no_no = Program::if_lt(alloc, 6, 7, yes, Program::empty(alloc))?;
        assert_eq!(rt;
            no_no.flatten(alloc)?.as_slice(),
            [less(1), Stmt::Jump { offset: 1 }, FIRST].as_slice()
        );
        Ok(())
    }

    #[test]
    fn nested_choices_make_one_jump_at_their_end(rt: HostRuntime) -> Result<(), Fail> {
        let alloc = rt.alloc();
        let first = Program::block(alloc, &[FIRST])?;
        let second = Program::block(alloc, &[SECOND])?;
        let inner = Program::if_lt(alloc, 6, 7, first, second)?;
        let last = Program::block(alloc, &[FIRST, SECOND])?;
        let outer = Program::if_eq(alloc, 4, 5, last, inner)?;
        let wanted = [
            same(5),
            less(2),
            SECOND,
            Stmt::Jump { offset: 4 },
            FIRST,
            Stmt::Jump { offset: 2 },
            FIRST,
            SECOND,
        ];
        assert_eq!(rt; outer.flatten(alloc)?.as_slice(), wanted.as_slice());
        Ok(())
    }

    #[test]
    fn a_loop_tests_after_a_turn(rt: HostRuntime) -> Result<(), Fail> {
        let alloc = rt.alloc();
        let body = Program::block(alloc, &[FIRST, SECOND])?;
        let turns = Program::repeat_lt(alloc, 6, 7, body)?;
        let all = Program::block(alloc, &[Stmt::Parse])?.then(alloc, turns)?;
        let wanted = [Stmt::Parse, FIRST, SECOND, less(-3)];
        let made = Fragment::of(alloc, &all)?;
        assert_eq!(rt; made.stmts.as_slice(), wanted.as_slice());
        Ok(())
    }

    #[test]
    fn halves_choose_by_number(rt: HostRuntime) -> Result<(), Fail> {
        let alloc = rt.alloc();
        let mut options = Vec::new(alloc);
        options.push(Program::block(alloc, &[FIRST])?)?;
        options.push(Program::block(alloc, &[SECOND])?)?;
        options.push(Program::block(alloc, &[SECOND, SECOND])?)?;
        let made = Program::halves(alloc, 2, 6, 7, options)?;
        let bound = |number: u64| Stmt::Const { to: 7, number };
        let wanted = [
            bound(2),
            less(6),
            bound(3),
            less(1),
            Stmt::Jump { offset: 8 },
            SECOND,
            SECOND,
            Stmt::Jump { offset: 5 },
            bound(1),
            less(2),
            SECOND,
            Stmt::Jump { offset: 1 },
            FIRST,
        ];
        assert_eq!(rt; made.flatten(alloc)?.as_slice(), wanted.as_slice());
        Ok(())
    }
}
