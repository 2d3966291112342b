//! The depth-first pass.
//!
//! It keeps the vertices that were seen, and whose class is not known yet, on a stack in the order in which they were seen. The stack is
//! cut into parts of vertices that reach each other. An edge to a vertex on the stack joins the parts from there up. When the pass is done
//! with the vertex where the last part begins, that part is a class, and leaves the stack.
//!
//! Where the edges of a vertex lead is known only once it is looked up, and a branch on it would often be predicted wrongly. So the pass
//! follows the edges of a vertex in one tight loop, which takes the least of their places and branches on nothing but a vertex that was not
//! seen.
ghost use Rattle.std.specs.Prelude.{◌≡◌, ◌≢◌, ℕ, ◌-◌, ◌+◌, ◌<◌, ◌≤◌, ◌^◌, ◌++◌, ◌∷◌, [], length, drop, slice_index, slice_index_or, IfOk};
ghost use Rattle.std.specs.Prelude.{OnOk, IfNone, Contains, vec_len};
ghost use Rattle.std.specs.Option.{option_to_list};
ghost use Rattle.cox_scc.specs.Visits.{Unseen, Open, nowhere};
ghost use Rattle.cox_scc.specs.Walk.{IsIncreasing, Joins, Follows, CloseMembers};

use crate::NoMemory;
use crate::adjacency::Adjacency;
use std::alloc::Global;

/// In place of the place of a vertex that is not on the stack. It is greater than all places.
const NOWHERE: u32 = u32::MAX;

/// A vertex that is being explored: its place on the stack, and the first of its edges that was not followed.
#[derive(Clone, Copy)]
pub(crate) struct Waiting {
    pub(crate) place: u32,
    pub(crate) next: usize,
}

/// What was met along edges: the least place, and the first edge that was not followed.
#[derive(Clone, Copy)]
pub(crate) struct Followed {
    pub(crate) low: u32,
    pub(crate) next: usize,
}

/// The state of the pass.
#[derive(Drop)]
pub(crate) struct Search {
    /// Which vertices the pass has come to.
    pub(crate) seen: Vec<bool>,
    /// For each open vertex its place on the stack, and `NOWHERE` for the others.
    pub(crate) places: Vec<u32>,
    /// For each closed vertex the least vertex of its class.
    pub(crate) classes: Vec<u32>,
    /// The open vertices, in the order in which they were seen.
    pub(crate) stack: Vec<u32>,
    /// The places of the stack where its parts begin.
    pub(crate) parts: Vec<u32>,
    /// The vertices that wait until what they led to is explored.
    pub(crate) waiting: Vec<Waiting>,
}

impl Search {
    ghost use Rattle.cox_scc.specs.Walk.{visit_of, IsWalk, LeadsIn, StaySeen, Enters, Begins, AreOpen, ClosesClass, Finishes, work_left};

    /// A pass that has seen no vertex.
    pub(crate) fn new(alloc: Global, adjacency: &Adjacency) -> Result<Search, NoMemory>
        ensures walk { IfOk result (λ search. IsWalk adjacency.now search []) }
        ensures idle { IfOk result (λ search. search.waiting.items ≡ []) }
    {
        let vertices = adjacency.vertices as usize;
        Ok(Search {
            seen: vec![in alloc; false; vertices]?,
            places: vec![in alloc; NOWHERE; vertices]?,
            classes: vec![in alloc; 0; vertices]?,
            stack: Vec::new(alloc),
            parts: Vec::new(alloc),
            waiting: Vec::new(alloc),
        })
    }

    /// Closes all vertices.
    pub(crate) fn explore_all(&mut self, adjacency: &Adjacency) -> Result<(), NoMemory>
        requires walk { IsWalk adjacency.now self.old [] }
        requires idle { self.old.waiting.items ≡ [] }
        ensures walk { OnOk result (IsWalk adjacency.now self.new []) }
        ensures seen { OnOk result ((v : ℕ) → v < adjacency.now.vertices → visit_of self.new v ≢ Unseen) }
    {
        for root in 0..adjacency.vertices {
            if !self.seen[root as usize] {
                self.explore(adjacency, root)?;
            }
        }
        Ok(())
    }

    /// The class of each vertex.
    pub(crate) fn into_classes(self) -> Vec<u32>
        ensures { result ≡ self.classes }
    {
        self.classes
    }

    /// Follows edges from the vertex as far as they lead to vertices that were not seen.
    pub(crate) fn explore(&mut self, adjacency: &Adjacency, root: u32) -> Result<(), NoMemory>
        requires walk { IsWalk adjacency.now self.old [] }
        requires root { root < adjacency.now.vertices }
        requires unseen { visit_of self.old root ≡ Unseen }
        requires idle { self.old.waiting.items ≡ [] }
        ensures walk { OnOk result (IsWalk adjacency.now self.new []) }
        ensures idle { OnOk result (self.new.waiting.items ≡ []) }
        ensures seen { OnOk result (StaySeen self.old self.new) }
        ensures found { OnOk result (visit_of self.new root ≢ Unseen) }
    {
        let mut place = Some(self.enter(adjacency, root)?);
        while let Some(here) = place {
            place = self.step(adjacency, here)?;
        }
        Ok(())
    }

    // Follows the edges of a vertex up to one that was not seen, or is done with it, and says where the pass goes on.
    fn step(&mut self, adjacency: &Adjacency, here: Waiting) -> Result<Option<Waiting>, NoMemory>
        requires walk { IsWalk adjacency.now self.old (self.old.waiting.items ++ here ∷ []) }
        ensures walk { IfOk result (λ there. IsWalk adjacency.now self.new (self.new.waiting.items ++ option_to_list there)) }
        ensures seen { OnOk result (StaySeen self.old self.new) }
        ensures end { IfOk result (λ there. IfNone there (self.new.waiting.items ≡ [])) }
        ensures less { IfOk result (λ there. work_left self.new (self.new.waiting.items ++ option_to_list there) < work_left self.old
            (self.old.waiting.items ++ here ∷ [])) }
    {
        let vertex = self.stack[here.place as usize] as usize;
        let end = adjacency.offsets[vertex + 1];
        let followed = follow(&self.seen, &self.places, &adjacency.targets, here, end);
        self.join(followed.low);
        if followed.next < end {
            let there = self.enter(adjacency, adjacency.targets[followed.next])?;
            self.waiting.push(Waiting {
                place: here.place,
                next: followed.next,
            })?;
            return Ok(Some(there));
        }
        self.finish(here.place);
        Ok(self.waiting.pop())
    }

    // Closes the last part where it begins at the place.
    fn finish(&mut self, here: u32)
        requires some { 0 < vec_len self.old.parts }
        requires here { here < vec_len self.old.stack }
        requires are_open { AreOpen self.old }
        requires vertices { (place : ℕ) → place < vec_len self.old.stack
            → slice_index self.old.stack.items place < vec_len self.old.places }
        requires sized { vec_len self.old.classes ≡ vec_len self.old.places }
        ensures { Finishes self.old self.new here }
    {
        let last = self.parts.len() - 1;
        if self.parts[last] == here {
            self.parts.truncate(last);
            self.close(here);
        }
    }

    // Puts a vertex that was not seen onto the stack, as a part of its own, and says where the pass goes on there.
    fn enter(&mut self, adjacency: &Adjacency, vertex: u32) -> Result<Waiting, NoMemory>
        requires room { vec_len self.old.stack < nowhere }
        requires vertex { vertex < adjacency.now.vertices }
        requires seen_count { vec_len self.old.seen ≡ adjacency.now.vertices }
        requires places_count { vec_len self.old.places ≡ adjacency.now.vertices }
        ensures enters { OnOk result (Enters self.old self.new vertex) }
        ensures begins { IfOk result (λ there. Begins adjacency.now self.old vertex there) }
        ensures waiting { self.new.waiting ≡ self.old.waiting }
    {
        let place = self.stack.len() as u32;
        self.stack.push(vertex)?;
        self.parts.push(place)?;
        self.seen[vertex as usize] = true;
        self.places[vertex as usize] = place;
        Ok(Waiting {
            place,
            next: adjacency.offsets[vertex as usize],
        })
    }

    // Joins the parts that begin after the place to the one before.
    fn join(&mut self, place: u32)
        requires { IsIncreasing self.old.parts.items }
        ensures others { self.new ≡ record self.old { parts = self.new.parts } }
        ensures joins { Joins self.old.parts.items self.new.parts.items place }
    {
        let count = count_up_to(&self.parts, place);
        self.parts.truncate(count);
    }

    // Makes a class of the vertices from the place up, and takes them off the stack.
    fn close(&mut self, low: u32)
        requires some { low < vec_len self.old.stack }
        requires are_open { AreOpen self.old }
        requires vertices { (place : ℕ) → place < vec_len self.old.stack
            → slice_index self.old.stack.items place < vec_len self.old.places }
        requires sized { vec_len self.old.classes ≡ vec_len self.old.places }
        ensures { ClosesClass self.old self.new low }
    {
        let low = low as usize;
        let least = least_of(&self.stack[low..]);
        close_members(
            &mut self.places,
            &mut self.classes,
            &self.stack[low..],
            least,
        );
        self.stack.truncate(low);
    }
}

// Follows edges of a vertex up to the end, or to one that leads to a vertex that was not seen, and takes the least place.
fn follow(seen: &[bool], places: &[u32], targets: &[u32], here: Waiting, end: usize) -> Followed
    requires from { here.next ≤ end }
    requires end { end ≤ length targets.now }
    requires targets { (e : ℕ) → here.next ≤ e → e < end → slice_index targets.now e < length seen.now }
    requires sized { length places.now ≡ length seen.now }
    ensures { Follows seen.now places.now targets.now here end result }
{
    let mut low = here.place;
    let mut next = here.next;
    while next < end && seen[targets[next] as usize] {
        low = low.min(places[targets[next] as usize]);
        next += 1;
    }
    Followed { low, next }
}

// How many of the places, which go up, are not after this one.
fn count_up_to(places: &[u32], place: u32) -> usize
    ensures within { result ≤ length places.now }
    ensures after { (k : ℕ) → result ≤ k → k < length places.now → place < slice_index places.now k }
    ensures last { 0 < result → slice_index places.now (result - 1) ≤ place }
{
    let mut count = places.len();
    while count > 0 && places[count - 1] > place {
        count -= 1;
    }
    count
}

// The least of some numbers.
fn least_of(members: &[u32]) -> u32
    requires { 0 < length members.now }
    ensures member { Contains members.now result }
    ensures least { (k : ℕ) → k < length members.now → result ≤ slice_index members.now k }
{
    let mut least = members[0];
    for &member in members {
        least = least.min(member);
    }
    least
}

// Closes the members, which were seen, and gives them a number.
fn close_members(places: &mut Vec<u32>, classes: &mut Vec<u32>, members: &[u32], least: u32)
    requires sized { vec_len classes.old ≡ vec_len places.old }
    requires members { (k : ℕ) → k < length members.now → slice_index members.now k < vec_len places.old }
    ensures { CloseMembers members.now least places.old.items places.new.items classes.old.items classes.new.items }
{
    for &member in members {
        places[member as usize] = NOWHERE;
        classes[member as usize] = least;
    }
}
