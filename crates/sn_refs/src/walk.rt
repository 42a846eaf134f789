//! The walk along the references of a model, from its project on. It looks at each instance once and at each reference
//! once.
//!
//! The instances on the way stand on a path of components: instances that lead to each other. A reference to an
//! instance of the path closes a cycle, so the components from there on become one. A component of which each
//! reference was followed is done, and leaves the path.
ghost use Rattle.std.specs.Prelude.{◌≡◌, ◌+◌, ◌-◌, ◌≤◌, ◌<◌, ◌↔◌, ◌∷◌, [], List, ℕ, None, Some, IsTrue, IfOk, OnOk, IfNone, IfSome, MatchOption, length, drop, nat_lt, false, slice_index, slice_get, vec_len};
ghost use Rattle.std.specs.List.{Contains};
ghost use Rattle.indexmap.specs.IndexMap.{index_map_len};
ghost use Rattle.sn_model.specs.Built.{IsModel};
ghost use Rattle.sn_model.specs.ModelContent.{ModelContent};
ghost use Rattle.sn_refs.specs.Path.{Part, members_of, components_of, IsVisited, IsPath, IsComing, IsMarkOf, IsLeastOf, IsCounted, IsMerged, IsWalk, lesser_fault, lesser_number, verdict_of_walk};
ghost use Rattle.sn_refs.specs.Sound.{IsSound, IsRanked, IsRefFault};

use crate::fault::RefFault;
use crate::instance::{add_targets, own_fault};
use crate::reference::references;
use indexmap::IndexMap;
use sn_model::{Model, kept_by_row, project_has_row};
use std::alloc::{AllocError, Global};

/// A part of the path: instances that lead to each other, which stand together among the members of the path.
#[derive(Clone, Copy, Drop)]
struct Component {
    first_member: usize,
    /// Where its targets begin that are still to be followed.
    first_pending: usize,
    /// Whether its instances lead back to themselves.
    is_cyclic: bool,
}

/// The fault of an instance.
#[derive(Clone, Copy, Drop)]
struct Noted {
    number: u32,
    fault: RefFault,
}

/// Where an instance stands.
#[derive(Clone, Copy, Drop)]
enum Mark {
    /// It was not visited.
    New,
    /// It has this place among the members of the path.
    OnPath(usize),
    /// All that it leads to was visited, and it left the path.
    Done,
}

/// The state of the walk.
#[derive(Drop)]
struct Walk {
    /// The place at which each visited instance stands on the path, or stood before it was done.
    places: IndexMap<u32, usize>,
    members: Vec<u32>,
    /// The targets that are still to be followed.
    pending: Vec<u32>,
    /// The inmost component is the last.
    path: Vec<Component>,
    /// The fault of the least number.
    fault: Option<Noted>,
    /// The least number of a done instance that leads back to itself.
    cycle: Option<u32>,
}

/// The fault of the lesser number.
fn lesser_noted(noted: Option<Noted>, number: u32, own: Option<RefFault>) -> Option<Noted>
    ensures { result ≡ lesser_fault noted number own }
{
    let Some(fault) = own else {
        return noted;
    };
    let new = Noted { number, fault };
    match noted {
        Some(old) => Some(if number < old.number { new } else { old }),
        None => Some(new),
    }
}

/// The lesser of the numbers.
fn lesser(least: Option<u32>, n: u32) -> u32
    ensures { result ≡ lesser_number least n }
{
    match least {
        Some(k) => k.min(n),
        None => n,
    }
}

/// The least of the numbers and the one that was least before.
fn least(before: Option<u32>, numbers: &[u32]) -> Option<u32>
    ensures { IsLeastOf before numbers.now result }
{
    let mut least = before;
    for n in numbers {
        least = Some(lesser(least, *n));
    }
    least
}

/// Whether the number stands at the place.
fn stands_at(members: &[u32], place: usize, n: u32) -> bool
    ensures { IsTrue result ↔ ((place < length members.now) × (slice_index members.now place ≡ n)) }
{
    place < members.len() && members[place] == n
}

/// Whether the inmost component begins behind the place.
fn begins_behind(path: &[Component], place: usize) -> bool
    ensures { MatchOption (slice_get path.now (length path.now - 1)) (result ≡ false) (λ c. result ≡ nat_lt place c.first_member) }
{
    match path.last() {
        Some(component) => place < component.first_member,
        None => false,
    }
}

/// Joins the components up to the one that holds the place, at which an instance stands that the inmost one names.
fn merge(path: &mut Vec<Component>, place: usize)
    ensures shorter { vec_len path.new ≤ vec_len path.old }
    ensures merged { (m : ModelContent) (settled : List ℕ) (parts : List Part) (n : ℕ) → path.old.items ≡ components_of parts → IsPath m (n ∷ settled) parts → IsComing m parts n → (h : Contains (members_of parts) n) → h.0 ≡ place → IsMerged m settled parts path.new.items }
{
    while begins_behind(path, place) {
        path.pop();
    }
    if let Some(inmost) = path.len().checked_sub(1) {
        path[inmost].is_cyclic = true;
    }
}

impl Walk {
    /// A walk that comes to the project next.
    fn new(alloc: Global) -> Walk
        ensures kept { (m : ModelContent) → IsWalk m (Some m.project) result }
        ensures empty { result.places.entries ≡ [] }
    {
        Walk {
            places: IndexMap::new(alloc),
            members: Vec::new(alloc),
            pending: Vec::new(alloc),
            path: Vec::new(alloc),
            fault: None,
            cycle: None,
        }
    }

    /// Where the instance stands.
    fn mark(&self, n: u32) -> Mark
        ensures { IsMarkOf self.now.places.entries self.now.members.items n result }
    {
        match self.places.get(&n) {
            Some(place) => {
                if stands_at(self.members.as_slice(), *place, n) {
                    Mark::OnPath(*place)
                } else {
                    Mark::Done
                }
            }
            None => Mark::New,
        }
    }

    /// Visits an instance, which becomes the inmost component.
    fn visit(&mut self, alloc: Global, model: &Model, n: u32) -> Result<(), AllocError>
        ensures kept { OnOk result (IsWalk model.now (Some n) self.old → ¬ IsVisited self.old.places.entries n → IsWalk model.now None self.new) }
        ensures counted { OnOk result (¬ IsVisited self.old.places.entries n → index_map_len self.new.places ≡ index_map_len self.old.places + 1) }
    {
        let references = references(alloc, model, n)?;
        let own = own_fault(model, n, references.as_slice());
        self.fault = lesser_noted(self.fault, n, own);
        self.places.insert(n, self.members.len())?;
        self.path.push(Component {
            first_member: self.members.len(),
            first_pending: self.pending.len(),
            is_cyclic: false,
        })?;
        self.members.push(n)?;
        add_targets(model, references.as_slice(), &mut self.pending)?;
        Ok(())
    }

    /// The least number of a done instance that leads back to itself, when the inmost component is done.
    fn cycle_with(&self, component: Component) -> Option<u32>
        ensures { component.first_member ≤ length self.now.members.items → IsCounted component.is_cyclic self.now.cycle (drop component.first_member self.now.members.items) result }
    {
        if !component.is_cyclic {
            return self.cycle;
        }
        match self.members.get(component.first_member..) {
            Some(members) => least(self.cycle, members),
            None => self.cycle,
        }
    }

    /// Takes away the inmost component, of which each reference was followed.
    fn finish(&mut self, component: Component)
        ensures kept { (m : ModelContent) → IsWalk m None self.old → slice_get self.old.path.items (length self.old.path.items - 1) ≡ Some component → length self.old.pending.items ≤ component.first_pending → IsWalk m None self.new }
        ensures shorter { vec_len self.new.path ≡ vec_len self.old.path - 1 }
        ensures others { (self.new.pending ≡ self.old.pending) × (self.new.places ≡ self.old.places) }
    {
        self.cycle = self.cycle_with(component);
        self.members.truncate(component.first_member);
        self.path.pop();
    }

    /// The next instance to visit; `None` where all are done.
    fn next_target(&mut self) -> Option<u32>
        ensures kept { (m : ModelContent) → IsWalk m None self.old → IsWalk m result self.new }
        ensures fresh { IfSome result (λ n. ¬ IsVisited self.new.places.entries n) }
        ensures ended { IfNone result (self.new.path.items ≡ []) }
        ensures places { self.new.places ≡ self.old.places }
    {
        while let Some(component) = self.path.last().copied() {
            if self.pending.len() <= component.first_pending {
                self.finish(component);
            } else if let Some(target) = self.pending.pop() {
                match self.mark(target) {
                    Mark::New => return Some(target),
                    Mark::OnPath(place) => merge(&mut self.path, place),
                    Mark::Done => {}
                }
            }
        }
        None
    }

    /// The fault that was noted, or else the cycle.
    fn verdict(&self) -> Option<RefFault>
        ensures { result ≡ verdict_of_walk self.now.fault self.now.cycle }
    {
        match (self.fault, self.cycle) {
            (Some(noted), _) => Some(noted.fault),
            (None, Some(n)) => Some(RefFault::Cycle(n)),
            (None, None) => None,
        }
    }
}

/// The walk over all that the project leads to.
fn explore(alloc: Global, model: &Model) -> Result<Walk, AllocError>
    requires { IsModel model.now }
    ensures { IfOk result (λ w. IsWalk model.now None w × (w.path.items ≡ [])) }
{
    kept_by_row();
    project_has_row();
    let mut walk = Walk::new(alloc);
    let mut next = Some(model.project());
    while let Some(n) = next {
        walk.visit(alloc, model, n)?;
        next = walk.next_target();
    }
    Ok(walk)
}

/// Why the model is not sound; `None` where it is.
pub fn first_fault(alloc: Global, model: &Model) -> Result<Option<RefFault>, AllocError>
    requires { IsModel model.now }
    ensures { IfOk result (λ r. MatchOption r (IsSound model.now × IsRanked model.now) (λ why. IsRefFault model.now why)) }
{
    kept_by_row();
    project_has_row();
    let walk = explore(alloc, model)?;
    Ok(walk.verdict())
}
