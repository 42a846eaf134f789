//! The walk: a loop over what is still to do, with the truths of the conditions that were evaluated.
ghost use Rattle.std.specs.Prelude.{◌≡◌, ◌⊎◌, ◌+◌, ◌≤◌, ◌++◌, ◌∷◌, [], ℕ, List, length, map, reverse, Some, None, Ok, IfOk, IfErr, OnOk, MatchResult, if◌then◌else◌};
ghost use Rattle.std.specs.List.{Contains};
ghost use Rattle.sn_entity.specs.declared.row.Group.TheVariants.{One as OneRow};
ghost use Rattle.sn_entity.specs.declared.row.RowId.TheVariants.{MachiningWorkingstep};
ghost use Rattle.sn_model.specs.ModelContent.{ModelContent};
ghost use Rattle.sn_outline.specs.declared.limits.TheConstants.{MOST_STEPS};
ghost use Rattle.sn_refs.specs.Reference.{IsReached};
ghost use Rattle.sn_refs.specs.Target.{IsTarget};
ghost use Rattle.sn_words.specs.declared.options.Assign.{Assign};
ghost use Rattle.sn_walk.specs.Condition.{value_of as has_value};
ghost use Rattle.sn_walk.specs.Node.{node_of, listed};
ghost use Rattle.sn_walk.specs.Pending.{GoesOn, IsReachedItem, begun, coming, earlier, gated, items_of, joined as joined_by, latest, rest};
ghost use Rattle.sn_walk.specs.Walk.{executed_of, fault_by, fault_of, is_other_setup, is_step};

use crate::condition::{compares_values, value_of};
use crate::fault::WalkFault;
use crate::laws::{executed_are_steps, instances_lead, outcome_tells, walk_goes_on};
use crate::limits::MOST_VISITS;
use crate::node::{Node, node_at};
use crate::project::{main_setup, main_workplan};
use sn_outline::MOST_STEPS;
use sn_refs::Checked;
use sn_words::Assign;
use sqlite_items::Items;
use std::alloc::{AllocError, Global};

/// Numbers of instances, seen as their list.
pub type Numbers = Items<u32>;

/// How the truths of two conditions are put together.
#[derive(Clone, Copy, Debug)]
enum Gate {
    Both,
    Either,
    Differ,
}

/// Something that is still to do.
#[derive(Clone, Copy, Debug)]
enum Item {
    /// Visits an instance.
    Visit(u32),
    /// Visits the first where the latest truth holds, else the second, if there is one.
    Branch(u32, Option<u32>),
    /// Puts the two latest truths together.
    Combine(Gate),
    /// Turns the latest truth round.
    Flip,
}

/// How far a walk has come.
#[derive(Drop)]
struct Walk {
    visits: usize,
    steps: Numbers,
    /// What is still to do; the last is the next.
    pending: Items<Item>,
    /// The truths that are still needed; the last is the latest.
    truths: Items<bool>,
}

/// The machining workingsteps that are executed, in order, each as often as it is; or why the walk ends.
pub fn executed(alloc: Global, c: &Checked, sets: &[Assign]) -> Result<Numbers, WalkFault>
    ensures exact { (result ≡ executed_of c.now sets.now) ⊎ (result ≡ Err WalkFault.Memory) }
    ensures steps { IfOk result (λ steps. (n : ℕ) → Contains steps n → IsTarget c.now (OneRow MachiningWorkingstep) n) }
    ensures short { IfOk result (λ steps. length steps ≤ MOST_STEPS) }
{
    let mut walk = Walk {
        visits: 0,
        steps: Items::new(alloc),
        pending: Items::new(alloc),
        truths: Items::new(alloc),
    };
    c.rule();
    instances_lead();
    walk_goes_on();
    executed_are_steps();
    outcome_tells();
    let mut next = Some(main_workplan(c));
    while let Some(n) = next {
        visit(c, sets, n, &mut walk)?;
        next = next_visit(&mut walk.pending, &mut walk.truths)?;
    }
    Ok(walk.steps)
}

/// Adds visits, the first of them as the next.
fn push_visits(pending: &mut Items<Item>, ns: &[u32]) -> Result<(), AllocError>
    ensures { OnOk result (reverse pending.new ≡ map Item.Visit ns.now ++ reverse pending.old) }
{
    for n in ns.iter().rev().copied() {
        pending.push(Item::Visit(n))?;
    }
    Ok(())
}

/// Adds visits, the first of them as the next, each with a gate behind it.
fn push_gated(pending: &mut Items<Item>, gate: Gate, ns: &[u32]) -> Result<(), AllocError>
    ensures { OnOk result (reverse pending.new ≡ gated gate ns.now ++ reverse pending.old) }
{
    for n in ns.iter().rev().copied() {
        pending.push(Item::Combine(gate))?;
        pending.push(Item::Visit(n))?;
    }
    Ok(())
}

/// Takes the latest truth.
fn take_latest(truths: &mut Items<bool>) -> bool
    ensures value { result ≡ latest (reverse truths.old) }
    ensures kept { reverse truths.new ≡ earlier (reverse truths.old) }
{
    truths.pop().unwrap_or(false)
}

impl Gate {
    fn joined(self, a: bool, b: bool) -> bool
        ensures { result ≡ joined_by self a b }
    {
        match self {
            Gate::Both => a && b,
            Gate::Either => a || b,
            Gate::Differ => a != b,
        }
    }
}

/// Does what is to do: the visit that comes of it, if one does.
fn settle(item: Item, truths: &mut Items<bool>) -> Result<Option<u32>, AllocError>
    ensures same { IfOk result (λ next. (m : ModelContent) (sets : List Assign) (items : List Item) → rest m sets (item ∷ items) (reverse truths.old) ≡ rest m sets (coming next items) (reverse truths.new)) }
    ensures reached { IfOk result (λ next. (m : ModelContent) → IsReachedItem m item → (n : ℕ) → next ≡ Some n → IsReached m n) }
{
    match item {
        Item::Visit(n) => Ok(Some(n)),
        Item::Branch(branch, otherwise) => {
            if take_latest(truths) {
                return Ok(Some(branch));
            }
            Ok(otherwise)
        }
        Item::Combine(gate) => {
            let second = take_latest(truths);
            let first = take_latest(truths);
            truths.push(gate.joined(first, second))?;
            Ok(None)
        }
        Item::Flip => {
            let truth = take_latest(truths);
            truths.push(!truth)?;
            Ok(None)
        }
    }
}

/// Does what is to do up to the next visit, if there is one.
fn next_visit(
    pending: &mut Items<Item>,
    truths: &mut Items<bool>,
) -> Result<Option<u32>, AllocError>
    ensures on { IfOk result (λ next. GoesOn (reverse pending.old) (reverse truths.old) next (reverse pending.new) (reverse truths.new)) }
    ensures ends { result ≡ Ok None → pending.new ≡ [] }
{
    while let Some(item) = pending.pop() {
        if let Some(n) = settle(item, truths)? {
            return Ok(Some(n));
        }
    }
    Ok(None)
}

/// Adds what is to do behind the visit of an instance.
fn follow(
    c: &Checked,
    sets: &[Assign],
    n: u32,
    node: Node,
    pending: &mut Items<Item>,
    truths: &mut Items<bool>,
) -> Result<(), AllocError>
    requires reached { IsReached c.now n }
    requires seen { node ≡ node_of c.now n }
    ensures pending { OnOk result (reverse pending.new ≡ items_of (listed c.now n) node ++ reverse pending.old) }
    ensures truths { OnOk result (reverse truths.new ≡ begun (has_value c.now sets.now) node (reverse truths.old)) }
{
    c.rule();
    instances_lead();
    let list = c.fields(n).many(0);
    match node {
        Node::Sequence => push_visits(pending, list)?,
        Node::Choice(condition, branch, otherwise) => {
            pending.push(Item::Branch(branch, otherwise))?;
            pending.push(Item::Visit(condition))?;
        }
        Node::AllOf => {
            truths.push(true)?;
            push_gated(pending, Gate::Both, list)?;
        }
        Node::AnyOf => {
            truths.push(false)?;
            push_gated(pending, Gate::Either, list)?;
        }
        Node::OneOf(a, b) => {
            truths.push(false)?;
            push_gated(pending, Gate::Differ, &[a, b])?;
        }
        Node::Opposite(a) => {
            pending.push(Item::Flip)?;
            pending.push(Item::Visit(a))?;
        }
        Node::Compared(comparison, a, b) => {
            truths.push(compares_values(c, sets, comparison, a, b))?;
            push_visits(pending, &[a, b])?;
        }
        Node::Step => {}
        Node::Variable => {}
        Node::Constant => {}
        Node::Other => {}
    }
    Ok(())
}

/// Whether a setup that is named is another than that of the main workplan.
fn is_other(main: Option<u32>, setup: Option<u32>) -> bool
    ensures { result ≡ is_other_setup main setup }
{
    match (main, setup) {
        (_, None) => false,
        (None, Some(_)) => true,
        (Some(main), Some(setup)) => main != setup,
    }
}

/// Why the visit of an instance ends the walk by what it shows, if it does, behind so many executed steps.
fn fault_at(c: &Checked, sets: &[Assign], n: u32, node: Node, steps: usize) -> Option<WalkFault>
    requires reached { IsReached c.now n }
    ensures { result ≡ fault_by c.now sets.now steps n node }
{
    match node {
        Node::Step if steps >= MOST_STEPS => Some(WalkFault::TooManySteps),
        Node::Sequence if is_other(main_setup(c), c.fields(n).one(1)) => {
            Some(WalkFault::SecondSetup(n))
        }
        Node::Variable if value_of(c, sets, n).is_none() => Some(WalkFault::Unset(n)),
        _ => None,
    }
}

/// Visits an instance.
fn visit(c: &Checked, sets: &[Assign], n: u32, walk: &mut Walk) -> Result<(), WalkFault>
    requires { IsReached c.now n }
    ensures passed { OnOk result (fault_of c.now sets.now walk.old.visits (length walk.old.steps) n ≡ None) }
    ensures visits { OnOk result ((walk.new.visits ≡ walk.old.visits + 1) × (walk.new.visits ≤ MOST_VISITS)) }
    ensures steps { OnOk result (walk.new.steps ≡ (if is_step c.now n then walk.old.steps ++ n ∷ [] else walk.old.steps)) }
    ensures pending { OnOk result (reverse walk.new.pending ≡ items_of (listed c.now n) (node_of c.now n) ++ reverse walk.old.pending) }
    ensures truths { OnOk result (reverse walk.new.truths ≡ begun (has_value c.now sets.now) (node_of c.now n) (reverse walk.old.truths)) }
    ensures refused { IfErr result (λ why. (why ≡ WalkFault.Memory) ⊎ (fault_of c.now sets.now walk.old.visits (length walk.old.steps) n ≡ Some why)) }
{
    if walk.visits >= MOST_VISITS {
        return Err(WalkFault::TooManySteps);
    }
    let node = node_at(c, n);
    if let Some(fault) = fault_at(c, sets, n, node, walk.steps.len()) {
        return Err(fault);
    }
    walk.visits += 1;
    if matches!(node, Node::Step) {
        walk.steps.push(n)?;
    }
    follow(c, sets, n, node, &mut walk.pending, &mut walk.truths)?;
    Ok(())
}
