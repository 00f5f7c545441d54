//! The plan of a certificate as JSON.
ghost use Rattle.std.specs.Prelude.{◌≡◌, IfOk};
ghost use Rattle.serde_json.specs.View.{view};
ghost use Rattle.join_tree.specs.Trees.{join};
ghost use Rattle.join_tree.specs.TreeOf.{tree_of};
ghost use Rattle.plan_report.specs.Certs.Faults.{Gives, GivesBy, or_bad};
ghost use Rattle.plan_report.specs.Certs.Plans.{plan_read, plan_written};
ghost use Rattle.query_json.specs.Walk.{as_whole};

use crate::certs::fault::CertFault;
use join_tree::Tree;
use serde_json::{Value, json};
use std::alloc::{AllocError, Global};

// The greatest number of a relation in a plan.
const RELATION_MAX: u64 = 31;

// The greatest number of an operator in a plan.
const OPERATOR_MAX: u64 = 255;

/// The plan as a value.
pub fn plan_to_value(alloc: Global, tree: &Tree) -> Result<Value, AllocError>
    ensures { IfOk result (λ v. view v ≡ plan_written (tree_of tree.now)) }
{
    match tree {
        Tree::Leaf(r) => Ok(Value::from(*r)),
        Tree::Join { op, left, right } => {
            let left = plan_to_value(alloc, left)?;
            let right = plan_to_value(alloc, right)?;
            json!(in alloc; [*op, left, right])
        }
    }
}

// A whole number up to a limit.
fn whole_of(value: &Value, limit: u64) -> Result<u64, CertFault>
    ensures { Gives result (or_bad (as_whole limit (view value.now))) }
{
    match value.as_u64() {
        Some(number) if number <= limit => Ok(number),
        _ => Err(CertFault::BadCertificates),
    }
}

fn joined(alloc: Global, op: u8, left: Tree, right: Tree) -> Result<Tree, AllocError>
    ensures { IfOk result (λ t. tree_of t ≡ join op (tree_of left) (tree_of right)) }
{
    Ok(Tree::Join {
        op,
        left: Box::new(alloc, left)?,
        right: Box::new(alloc, right)?,
    })
}

/// The plan that a value is.
pub fn plan_of_value(alloc: Global, value: &Value) -> Result<Tree, CertFault>
    ensures { GivesBy tree_of result (plan_read (view value.now)) }
{
    match value {
        Value::Number(_) => Ok(Tree::Leaf(whole_of(value, RELATION_MAX)? as u8)),
        Value::Array(items) => match items.as_slice() {
            [op, left, right] => {
                let op = whole_of(op, OPERATOR_MAX)? as u8;
                let left = plan_of_value(alloc, left)?;
                let right = plan_of_value(alloc, right)?;
                Ok(joined(alloc, op, left, right)?)
            }
            _ => Err(CertFault::BadCertificates),
        },
        _ => Err(CertFault::BadCertificates),
    }
}
