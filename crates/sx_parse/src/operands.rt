// The operands that are complete.
ghost use Rattle.std.specs.Prelude.{◌≡◌, [], ◌∷◌, OnOk};
ghost use Rattle.sx_parse.specs.Built as spec;
ghost use Rattle.sx_parse.specs.Wording.{meaning_of};

use crate::forms::{one, whole};
use crate::meanings::Wording;
use sqlite_items::Items;
use std::alloc::{AllocError, Global};
use std::marker::Model;
use sx_kinds::{Expr, Exprs};

/// Lists of operands that are complete, and that nothing joins yet. A contract sees the last list first.
#[derive(Drop)]
pub(crate) struct Operands {
    lists: Items<Exprs>,
}

impl Model for Operands {
    ghost use Rattle.std.specs.Coded.{codes as all_codes};
    ghost use Rattle.std.specs.Prelude.{List, reverse};
    ghost use Rattle.sx_kinds.specs.contracts.expressions.Expr as expr;
    ghost use Rattle.sx_kinds.specs.declared.expressions.Expr.{Expr as AnyExpr};

    ghost Value = { List (List AnyExpr) };

    ghost coded = { Prim.hlevel (all_codes, expr.the_row.coded) };

    ghost view = { λ o. reverse o.lists };
}

impl Operands {
    pub(crate) fn new(alloc: Global) -> Operands
        ensures { result ≡ [] }
    {
        Operands {
            lists: Items::new(alloc),
        }
    }

    /// Puts a list on top.
    pub(crate) fn put_list(&mut self, list: Exprs) -> Result<(), AllocError>
        ensures { OnOk result (self.new ≡ list ∷ self.old) }
    {
        self.lists.push(list)
    }

    /// Puts one operand on top.
    pub(crate) fn put(&mut self, alloc: Global, expr: Expr) -> Result<(), AllocError>
        ensures { OnOk result (self.new ≡ (expr ∷ []) ∷ self.old) }
    {
        self.put_list(one(alloc, expr)?)
    }

    /// Takes the list on top.
    pub(crate) fn take_list(&mut self, alloc: Global) -> Exprs
        ensures value { result ≡ spec.top self.old }
        ensures after { self.new ≡ spec.below_top self.old }
    {
        match self.lists.pop() {
            Some(list) => list,
            None => Exprs::new(alloc),
        }
    }

    /// Takes what commas join on top.
    pub(crate) fn take(&mut self, alloc: Global, words: &Wording) -> Expr
        ensures value { result ≡ spec.whole_top (meaning_of words.now) self.old }
        ensures after { self.new ≡ spec.below_top self.old }
    {
        whole(words, self.take_list(alloc))
    }
}
