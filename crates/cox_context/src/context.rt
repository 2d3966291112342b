//! The type of contexts, and how a context is made.
//!
//! - `growing`: adds the members below an element behind the others
//! - `finding`: the number of the element that a word names
//! - `look_ups`: what is known of a member by its number
ghost use Rattle.std.specs.Prelude.{◌≡◌, ◌≤◌, ◌↔◌, length, IfOk, IfErr, IsTrue};
ghost use Rattle.cox_base.specs.Matrix.{IsWord};
ghost use Rattle.cox_base.specs.Admissible.{IsAdmissible};
ghost use Rattle.cox_base.specs.IntegerMatrix.{integer_matrix};
ghost use Rattle.cox_base.specs.ShortLex.{normal_form};
ghost use Rattle.cox_base.specs.Descents.{left_descents, right_descents};
ghost use Rattle.cox_base.specs.Members.{IsElement, IsInInterval};
ghost use Rattle.cox_context.specs.Closed.{IsClosed};
ghost use Rattle.cox_base.specs.SortedList.{IsListOf, IsRising};
ghost use Rattle.cox_context.specs.FaultMeaning.{IsRefusal};
ghost use Rattle.cox_context.specs.Shifts.{AreLeftShifts};

mod finding;
mod growing;
mod look_ups;

use crate::ContextFault;
use crate::builder::{Builder, Listing};
use crate::inverses::inverses;
use crate::members::MAX_MEMBERS;
use crate::scope::Scope;
use crate::shifts::{MAX_NARROW_MEMBERS, narrowed};
use crate::tables::Tables;
use cox_base::{Coxeter, MAX_LETTERS, Side, Word};
use cox_minroots::RootTable;
use cox_reflect::{LETTERS_OF_128_BITS, descents, normal_form};
use std::alloc::{AllocError, Global};
use std::marker::Model;

/// The elements of Bruhat intervals from the identity, or of a whole finite group: distinct normal forms, closed downwards.
///
/// A member's number is its place, from 0, so the identity has the number 0. Numbers rise in Bruhat order. In a new context the members are
/// in ShortLex order; those that are added later come behind them, and `is_in_order` tells whether all are in that order still. The
/// members' left and right shifts and descents are kept by number. On request the numbers of their inverses are kept, too, and the shifts
/// of few members in two bytes each, so that look-ups read half as much memory. Contracts see the Coxeter matrix and the list of the
/// members; `len` tells what holds of each such list.
#[derive(Drop)]
pub struct Context {
    group: Coxeter,
    listing: Listing,
    tables: Tables,
    // the shifts in two bytes each, where they are kept so
    narrow_left: Vec<u16>,
    narrow_right: Vec<u16>,
}

impl Model for Context {
    ghost use Rattle.cox_base.specs.IntegerMatrix.{integer_matrix};
    ghost use Rattle.cox_context.specs.Closed.{Elements};
    ghost use Rattle.cox_context.specs.Contexts.{IsContext};

    ghost Value = { Elements };

    ghost view = { λ c. record { matrix = c.group; members = c.listing.members } };

    ghost invariant = { λ c. IsContext (integer_matrix c.group) c.listing.members c.listing.left.items c.tables.right.items
        c.tables.left_descents.items c.tables.right_descents.items c.narrow_left.items c.narrow_right.items c.tables.inverses.items };
}

impl Context {
    /// The elements x with x <= w.
    ///
    /// `Size` where there are more than `limit` of them. In A 3 the interval of `121321` is the whole group, of 24 elements.
    pub fn of_interval(
        alloc: Global,
        group: &RootTable,
        w: &Word,
        limit: u32,
    ) -> Result<Context, ContextFault>
        requires letters { IsWord group.now.rank w.now.items }
        requires some { 1 ≤ limit }
        requires limit { limit ≤ MAX_MEMBERS }
        ensures matrix { IfOk result (λ c. c.matrix ≡ group.now) }
        ensures members { IfOk result (λ c. IsListOf (IsInInterval (integer_matrix group.now) w.now.items) c.members) }
        ensures few { IfOk result (λ c. length c.members ≤ limit) }
        ensures refused { IfErr result (IsRefusal (IsInInterval (integer_matrix group.now) w.now.items) limit) }
    {
        let top = group.normal_form(w);
        let descents = group.left_descents(&top);
        Context::up_to(alloc, group.group(), w, top, descents, limit)
    }

    /// The elements x with x <= w, for a word w of at most [`LETTERS_OF_128_BITS`] letters.
    ///
    /// It needs no table of small roots: it is for a program that checks what another one found, and takes a group as it comes. `Size`
    /// where there are more than `limit` elements. In A 3 the interval of `2132` has 14.
    pub fn of_short_interval(
        alloc: Global,
        group: &Coxeter,
        w: &Word,
        limit: u32,
    ) -> Result<Context, ContextFault>
        requires letters { IsWord group.now.rank w.now.items }
        requires short { length w.now.items ≤ LETTERS_OF_128_BITS }
        requires some { 1 ≤ limit }
        requires limit { limit ≤ MAX_MEMBERS }
        ensures matrix { IfOk result (λ c. c.matrix ≡ group.now) }
        ensures members { IfOk result (λ c. IsListOf (IsInInterval (integer_matrix group.now) w.now.items) c.members) }
        ensures few { IfOk result (λ c. length c.members ≤ limit) }
        ensures refused { IfErr result (IsRefusal (IsInInterval (integer_matrix group.now) w.now.items) limit) }
    {
        let top = normal_form(group, w);
        let descents = descents(group, &top, Side::Left);
        Context::up_to(alloc, group, w, top, descents, limit)
    }

    /// The elements x with x <= w, by the normal form of w and the left descents of that.
    fn up_to(
        alloc: Global,
        group: &Coxeter,
        w: &Word,
        top: Word,
        descents: Word,
        limit: u32,
    ) -> Result<Context, ContextFault>
        requires form { top.items ≡ normal_form (integer_matrix group.now) w.now.items }
        requires letters { IsWord group.now.rank top.items }
        requires descents { descents.items ≡ left_descents (integer_matrix group.now) top.items }
        requires some { 1 ≤ limit }
        requires limit { limit ≤ MAX_MEMBERS }
        ensures matrix { IfOk result (λ c. c.matrix ≡ group.now) }
        ensures members { IfOk result (λ c. IsListOf (IsInInterval (integer_matrix group.now) w.now.items) c.members) }
        ensures few { IfOk result (λ c. length c.members ≤ limit) }
        ensures refused { IfErr result (IsRefusal (IsInInterval (integer_matrix group.now) w.now.items) limit) }
    {
        let _ = w;
        let _rank = group.rank();
        prove!(top.len() <= MAX_LETTERS);
        let letters = top.len() as u32;
        let scope = Scope {
            group: group.copy(),
            descents,
            top: Some(top),
        };
        let builder = Builder::new(alloc, &scope, limit)?;
        let (builder, _) = builder.grow(letters)?;
        let listing = builder.finish();
        Context::of_members(alloc, scope.group, listing)
    }

    /// The elements of a group.
    ///
    /// `Size` where there are more than `limit` of them, and the first `limit` + 1 have at most `MAX_LETTERS` letters each; `Long` where
    /// one of the first `limit` + 1 has one letter more, as in each infinite group if `limit` is great enough.
    pub fn of_group(alloc: Global, group: &RootTable, limit: u32) -> Result<Context, ContextFault>
        requires some { 1 ≤ limit }
        requires limit { limit ≤ MAX_MEMBERS }
        ensures matrix { IfOk result (λ c. c.matrix ≡ group.now) }
        ensures members { IfOk result (λ c. IsListOf (IsElement (integer_matrix group.now)) c.members) }
        ensures few { IfOk result (λ c. length c.members ≤ limit) }
        ensures refused { IfErr result (IsRefusal (IsElement (integer_matrix group.now)) limit) }
    {
        let scope = Scope {
            group: group.group().copy(),
            top: None,
            descents: Word::new(),
        };
        let builder = Builder::new(alloc, &scope, limit)?;
        let (builder, low) = builder.grow(MAX_LETTERS as u32)?;
        if builder.goes_on(low) {
            return Err(ContextFault::Long);
        }
        let listing = builder.finish();
        Context::of_members(alloc, scope.group, listing)
    }

    /// The context with the members that were found.
    fn of_members(alloc: Global, group: Coxeter, listing: Listing) -> Result<Context, ContextFault>
        requires closed { IsClosed (integer_matrix group) listing.members }
        requires left { AreLeftShifts (integer_matrix group) listing.members listing.left.items }
        ensures made { IfOk result (λ c. c ≡ record { matrix = group; members = listing.members }) }
        ensures fault { IfErr result (λ fault. fault ≡ ContextFault.NoMemory) }
    {
        let Ok(tables) = Tables::new(alloc, &group, &listing) else {
            return Err(ContextFault::NoMemory);
        };
        Ok(Context {
            group,
            listing,
            tables,
            narrow_left: Vec::new(alloc),
            narrow_right: Vec::new(alloc),
        })
    }

    /// Keeps the shifts of at most `MAX_NARROW_MEMBERS` members in two bytes each too, so that `left` and `right` read half as much memory;
    /// with more members it does nothing.
    ///
    /// A context to which `extend` adds members keeps none from there on.
    pub fn keep_narrow_shifts(&mut self, alloc: Global) -> Result<(), AllocError>
        ensures { self.new ≡ self.old }
    {
        if self.len() > MAX_NARROW_MEMBERS {
            return Ok(());
        }
        let narrow_left = narrowed(alloc, self.listing.left.as_slice())?;
        let narrow_right = narrowed(alloc, self.tables.right.as_slice())?;
        self.narrow_left = narrow_left;
        self.narrow_right = narrow_right;
        Ok(())
    }

    /// Keeps the number of each member's inverse, so that `inverse` is one look-up; members that are added later get theirs.
    ///
    /// It takes four bytes a member, and one look-up of a right shift for each.
    pub fn keep_inverses(&mut self, alloc: Global) -> Result<(), AllocError>
        ensures { self.new ≡ self.old }
    {
        let shifts = self.listing.shifts(&self.group);
        let inverses = inverses(alloc, &shifts, self.tables.right.as_slice())?;
        self.tables.inverses = inverses;
        Ok(())
    }

    /// The number of members.
    pub fn len(&self) -> u32
        ensures len { result ≡ length self.now.members }
        ensures closed { IsClosed (integer_matrix self.now.matrix) self.now.members }
        ensures admissible { IsAdmissible (integer_matrix self.now.matrix) }
    {
        let _rank = self.group.rank();
        self.listing.members.len()
    }

    /// Whether the members are in ShortLex order, as they are in a new context. It is kept, and not looked for.
    pub fn is_in_order(&self) -> bool
        ensures { IsTrue result ↔ IsRising self.now.members }
    {
        self.listing.members.are_in_order()
    }

    /// The Coxeter matrix of the group.
    pub fn matrix(&self) -> &Coxeter
        ensures { result.now ≡ self.now.matrix }
    {
        &self.group
    }
}
