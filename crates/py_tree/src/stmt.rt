//! Statements.

use crate::{BinaryOp, Expr};
use mpy_base::{Items, Text};

/// The statements of a source.
#[derive(Drop)]
pub struct Module {
    pub body: Items<Stmt>,
}

/// A statement and the line of its first token.
#[cycle(statement)]
#[derive(Drop)]
pub struct Stmt {
    pub line: u32,
    pub kind: StmtKind,
}

/// `if` or `elif`, with the line of that word.
#[cycle(statement)]
#[derive(Drop)]
pub struct Branch {
    pub line: u32,
    pub test: Expr,
    pub body: Items<Stmt>,
}

/// `except`, with the line of that word.
#[cycle(statement)]
#[derive(Drop)]
pub struct Handler {
    pub line: u32,
    pub test: Option<Expr>,
    pub name: Option<Text>,
    pub body: Items<Stmt>,
}

/// A parameter of a function, with its default if it has one.
#[derive(Drop)]
pub struct Param {
    pub name: Text,
    pub default: Option<Expr>,
}

/// A name of an import, and the name that it is bound to where that is another.
#[derive(Drop)]
pub struct Alias {
    pub name: Text,
    pub bound: Option<Text>,
}

/// What a store goes to.
#[derive(Drop)]
pub enum Target {
    Name(Text),
    Attr { object: Expr, name: Text },
    Index { object: Expr, index: Expr },
    Unpack(Items<Target>),
}

/// A statement. `rest` is the body of its `else`, and `last` that of its `finally`.
#[cycle(statement)]
#[derive(Drop)]
pub enum StmtKind {
    Expr(Expr),
    Assign {
        targets: Items<Target>,
        value: Expr,
    },
    Aug {
        target: Target,
        op: BinaryOp,
        value: Expr,
    },
    Del(Items<Target>),
    Pass,
    Break,
    Continue,
    Return(Option<Expr>),
    Raise(Option<Expr>),
    Global(Items<Text>),
    Import(Items<Alias>),
    From {
        module: Text,
        names: Items<Alias>,
    },
    Assert {
        test: Expr,
        message: Option<Expr>,
    },
    If {
        branches: Items<Branch>,
        rest: Items<Stmt>,
    },
    While {
        test: Expr,
        body: Items<Stmt>,
        rest: Items<Stmt>,
    },
    For {
        target: Target,
        over: Expr,
        body: Items<Stmt>,
        rest: Items<Stmt>,
    },
    Try {
        body: Items<Stmt>,
        handlers: Items<Handler>,
        rest: Items<Stmt>,
        last: Option<Items<Stmt>>,
    },
    Def {
        name: Text,
        params: Items<Param>,
        body: Items<Stmt>,
    },
}
