//! Relations between values.

ghost use Rattle.std.specs.Prelude.{◌≡◌};
ghost use Rattle.abs_cells.specs.Relations as spec;
ghost use Rattle.abs_cells.specs.Relations.{mirror_of, opposite_of, relation_said};

use fc_base::Relation;
use int_interval::Said;
use int_value::Value;

/// The relation that holds exactly where this one doesn't.
pub fn opposite(relation: Relation) -> Relation
    ensures { result ≡ opposite_of relation }
{
    match relation {
        Relation::Less => Relation::GreaterEq,
        Relation::LessEq => Relation::Greater,
        Relation::Greater => Relation::LessEq,
        Relation::GreaterEq => Relation::Less,
        Relation::Equal => Relation::NotEqual,
        Relation::NotEqual => Relation::Equal,
    }
}

/// The same relation with its sides exchanged.
pub fn mirrored(relation: Relation) -> Relation
    ensures { result ≡ mirror_of relation }
{
    match relation {
        Relation::Less => Relation::Greater,
        Relation::LessEq => Relation::GreaterEq,
        Relation::Greater => Relation::Less,
        Relation::GreaterEq => Relation::LessEq,
        Relation::Equal => Relation::Equal,
        Relation::NotEqual => Relation::NotEqual,
    }
}

/// What is said of a relation between numbers of both values.
#[tactic(auto, unfolding(crate::specs::Relations::relation_said))]
pub fn said(relation: Relation, left: &Value, right: &Value) -> Said
    ensures { result ≡ relation_said relation left.now right.now }
{
    match relation {
        Relation::Less => left.less(right),
        Relation::LessEq => left.less_eq(right),
        Relation::Greater => right.less(left),
        Relation::GreaterEq => right.less_eq(left),
        Relation::Equal => left.equal(right),
        Relation::NotEqual => turned(left.equal(right)),
    }
}

fn turned(said: Said) -> Said
    ensures { result ≡ spec.turned said }
{
    match said {
        Said::Yes => Said::No,
        Said::No => Said::Yes,
        Said::Maybe => Said::Maybe,
        Said::Unreached => Said::Unreached,
    }
}
