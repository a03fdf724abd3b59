//! Scripts.

ghost use Rattle.std.specs.Prelude.{◌≡◌, ◌<◌, ◌≤◌, length};

use crate::statement::Statement;
use std::marker::Model;

/// A name of a class, a title, a message or a procedure. Contracts see its bytes.
#[derive(Drop)]
pub struct Name {
    text: Vec<u8>,
}

impl Model for Name {
    ghost use Rattle.std.specs.Prelude.{List, ℕ};

    ghost Value = { List ℕ };

    ghost view = { λ n. n.text.items };
}

impl Name {
    /// The name of these bytes.
    pub fn new(text: Vec<u8>) -> Name
        ensures { result ≡ text.items }
    {
        Name { text }
    }

    /// Its bytes.
    pub fn text(&self) -> &[u8]
        ensures { result.now ≡ self.now }
    {
        &self.text
    }
}

/// The statements of one thread or procedure, in order. Contracts see the list.
#[derive(Drop)]
pub struct Body {
    statements: Vec<Statement>,
}

impl Model for Body {
    ghost use Rattle.std.specs.Prelude.{List};
    ghost use Rattle.std.specs.Coded.{codes};
    ghost use Rattle.script_tree.specs.declared.statement.Statement.{Statement};
    ghost use Rattle.script_tree.specs.contracts.statement.Statement as statement_words;

    ghost Value = { List Statement };

    ghost coded = { Prim.hlevel (codes, statement_words.the_row.coded) };

    ghost view = { λ b. b.statements.items };
}

impl Body {
    /// The body of these statements.
    pub fn new(statements: Vec<Statement>) -> Body
        ensures { result ≡ statements.items }
    {
        Body { statements }
    }

    /// The statements, in order.
    pub fn statements(&self) -> &[Statement]
        ensures { result.now ≡ self.now }
    {
        &self.statements
    }
}

/// A window or callback procedure. Contracts see its name and its statements.
#[derive(Drop)]
pub struct Procedure {
    name: Name,
    body: Body,
}

impl Model for Procedure {
    ghost use Rattle.std.specs.Coded.{codes};
    ghost use Rattle.script_tree.specs.Tree.{ProcedureTree};
    ghost use Rattle.script_tree.specs.contracts.statement.Statement as statement_words;

    ghost Value = { ProcedureTree };

    ghost coded = { Prim.hlevel (codes, statement_words.the_row.coded) };

    ghost view = { λ p. record { name = p.name; body = p.body } };
}

impl Procedure {
    /// The procedure of this name.
    pub fn new(name: Name, body: Body) -> Procedure
        ensures { result ≡ record { name = name; body = body } }
    {
        Procedure { name, body }
    }

    /// Its name.
    pub fn name(&self) -> &Name
        ensures { result.now ≡ self.now.name }
    {
        &self.name
    }

    /// Its statements.
    pub fn body(&self) -> &Body
        ensures { result.now ≡ self.now.body }
    {
        &self.body
    }
}

/// A script: the screen, how many entries a thread may make, the order list, the names, the procedures,
/// and the threads. Contracts see the tree.
#[derive(Drop)]
pub struct Script {
    width: u16,
    height: u16,
    budget: u32,
    order: Vec<u8>,
    names: Vec<Name>,
    procedures: Vec<Procedure>,
    threads: Vec<Body>,
}

impl Model for Script {
    ghost use Rattle.std.specs.Coded.{codes};
    ghost use Rattle.script_tree.specs.Tree.{Tree};
    ghost use Rattle.script_tree.specs.contracts.statement.Statement as statement_words;

    ghost Value = { Tree };

    ghost coded = { Prim.hlevel (codes, statement_words.the_row.coded) };

    ghost view = { λ s. record { width = s.width; height = s.height; budget = s.budget; order = s.order.items; names = s.names.items; procedures = s.procedures.items; threads = s.threads.items } };
}

impl Script {
    ghost use Rattle.script_tree.specs.Tree.{body_of};

    /// The tree of these parts; it need not be within the limits of a script.
    pub fn new(
        width: u16,
        height: u16,
        budget: u32,
        order: Vec<u8>,
        names: Vec<Name>,
        procedures: Vec<Procedure>,
        threads: Vec<Body>,
    ) -> Script
        ensures { result ≡ record { width = width; height = height; budget = budget; order = order.items; names = names.items; procedures = procedures.items; threads = threads.items } }
    {
        Script {
            width,
            height,
            budget,
            order,
            names,
            procedures,
            threads,
        }
    }

    /// The screen's width in pixels.
    pub fn width(&self) -> u16
        ensures { result ≡ self.now.width }
    {
        self.width
    }

    /// The screen's height in pixels.
    pub fn height(&self) -> u16
        ensures { result ≡ self.now.height }
    {
        self.height
    }

    /// How many entries a thread may make in the history.
    pub fn budget(&self) -> u32
        ensures { result ≡ self.now.budget }
    {
        self.budget
    }

    /// The order list: who is to move first, second and so on.
    pub fn order(&self) -> &[u8]
        ensures { result.now ≡ self.now.order }
    {
        &self.order
    }

    /// The names of classes, titles and messages, each once.
    pub fn names(&self) -> &[Name]
        ensures { result.now ≡ self.now.names }
    {
        &self.names
    }

    /// The procedures, with distinct names; classes and callback sends name them by their place, from 0.
    pub fn procedures(&self) -> &[Procedure]
        ensures { result.now ≡ self.now.procedures }
    {
        &self.procedures
    }

    /// The threads' bodies, thread 1 first.
    pub fn threads(&self) -> &[Body]
        ensures { result.now ≡ self.now.threads }
    {
        &self.threads
    }

    /// How many threads there are.
    pub fn thread_count(&self) -> u8
        requires { length self.now.threads < 256 }
        ensures { result ≡ length self.now.threads }
    {
        self.threads.len() as u8
    }

    /// The statements of a thread, from thread 1 on.
    pub fn body(&self, thread: u8) -> &[Statement]
        requires some { 0 < thread }
        requires known { thread ≤ length self.now.threads }
        ensures { result.now ≡ body_of self.now thread }
    {
        self.threads[(thread - 1) as usize].statements()
    }
}
