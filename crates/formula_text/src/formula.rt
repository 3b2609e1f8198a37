//! A formula, as the record of a log holds it.

ghost use Rattle.std.specs.Prelude.{◌≡◌};
ghost use Rattle.expr_tree.specs.Trees.{relation_of};

use expr_tree::Rel;
use std::marker::Model;

/// A relation of a log. A contract sees the relation itself, without where its terms lie in memory.
#[derive(Debug, Drop)]
pub struct Formula {
    rel: Rel,
}

impl Model for Formula {
    ghost use Rattle.std.specs.Coded.{codes};
    ghost use Rattle.expr_tree.specs.Trees.{Relation, relation_of};
    ghost use Rattle.formula_text.specs.Stored.{relation_code};

    ghost Value = { Relation };

    ghost coded = { relation_code (Prim.hlevel codes) };

    ghost view = { λ f. relation_of f.rel };
}

impl Formula {
    /// The formula of a relation.
    pub fn new(rel: Rel) -> Formula
        ensures { result ≡ relation_of rel }
    {
        Formula { rel }
    }

    /// Its relation.
    pub fn relation(&self) -> &Rel
        ensures { relation_of result.now ≡ self.now }
    {
        &self.rel
    }
}
