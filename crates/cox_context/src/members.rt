//! The members of a context, by number.
ghost use Rattle.std.specs.Prelude.{◌≡◌, ◌+◌, ◌-◌, ◌<◌, ◌≤◌, ◌↔◌, [], ◌∷◌, ◌++◌, length, take, IfOk, OnOk, OnErr, IsTrue};
ghost use Rattle.std.specs.declared.cmp.Ordering.TheVariants.{Less};
ghost use Rattle.cox_base.specs.ShortLex.{shortlex_cmp};
ghost use Rattle.cox_base.specs.SortedList.{IsRising};
ghost use Rattle.cox_context.specs.Links.{AreRising};
ghost use Rattle.cox_context.specs.Numbers.{word_at};

use cox_base::{MAX_LETTERS, Word};
use std::alloc::{AllocError, Global};
use std::marker::Model;

/// The greatest number of members of a context.
pub const MAX_MEMBERS: u32 = 1_048_576;

/// A member s x: its first letter s, the number of x, and how many letters it has. That of the identity has no letters.
#[derive(Clone, Copy)]
pub(crate) struct Link {
    pub(crate) first: u8,
    pub(crate) letters: u8,
    pub(crate) rest: u32,
}

/// Members, no more than `MAX_MEMBERS`: the identity, and then each behind the rest of its word. Contracts see the list of their words.
#[derive(Drop)]
pub(crate) struct Members {
    links: Vec<Link>,
    // how many of them, from the identity on, are in ShortLex order
    rising: u32,
}

impl Model for Members {
    ghost use Rattle.std.specs.Prelude.{ℕ, List};
    ghost use Rattle.cox_context.specs.Links.{linked_words, AreMembers};

    ghost Value = { List (List ℕ) };

    ghost view = { λ m. linked_words m.links.items };

    ghost invariant = { λ m. AreMembers m.links.items m.rising };
}

impl Members {
    /// The identity alone.
    pub(crate) fn new(alloc: Global) -> Result<Members, AllocError>
        ensures { IfOk result (λ m. m ≡ [] ∷ []) }
    {
        let mut links = Vec::new(alloc);
        links.push(Link {
            first: 0,
            letters: 0,
            rest: 0,
        })?;
        Ok(Members { links, rising: 1 })
    }

    /// How many members there are.
    pub(crate) fn len(&self) -> u32
        ensures len { result ≡ length self.now }
        ensures some { 1 ≤ result }
        ensures few { result ≤ MAX_MEMBERS }
        ensures identity { word_at self.now 0 ≡ [] }
    {
        self.links.len() as u32
    }

    /// The first letter of a member other than the identity, and the number of the rest.
    pub(crate) fn link(&self, i: u32) -> Link
        requires some { 0 < i }
        requires member { i < length self.now }
        ensures word { word_at self.now i ≡ result.first ∷ word_at self.now result.rest }
        ensures inward { result.rest < i }
    {
        self.links[i as usize]
    }

    /// The number of letters of a member.
    pub(crate) fn length(&self, i: u32) -> u32
        requires { i < length self.now }
        ensures length { result ≡ length (word_at self.now i) }
        ensures short { result ≤ MAX_LETTERS }
    {
        self.links[i as usize].letters as u32
    }

    /// Whether the members are in ShortLex order.
    pub(crate) fn are_in_order(&self) -> bool
        ensures { IsTrue result ↔ IsRising self.now }
    {
        self.rising == self.len()
    }

    /// The word of a member.
    pub(crate) fn word(&self, i: u32) -> Word
        requires { i < length self.now }
        ensures { result.items ≡ word_at self.now i }
    {
        prove!(i < self.len() && self.length(i) as usize <= MAX_LETTERS);
        let mut word = Word::new();
        let mut at = i;
        while at > 0 {
            let link = self.link(at);
            word.push(link.first);
            at = link.rest;
        }
        word
    }

    /// Appends the member s x, for the member x with the number `rest`.
    pub(crate) fn push(&mut self, s: u8, rest: u32) -> Result<(), AllocError>
        requires room { length self.old < MAX_MEMBERS }
        requires member { rest < length self.old }
        requires short { length (word_at self.old rest) < MAX_LETTERS }
        ensures pushed { OnOk result (self.new ≡ self.old ++ (s ∷ word_at self.old rest) ∷ []) }
        ensures kept { OnErr result (self.new ≡ self.old) }
    {
        let letters = self.links[rest as usize].letters + 1;
        let link = Link {
            first: s,
            letters,
            rest,
        };
        let rising = self.rising_with(link);
        self.links.push(link)?;
        self.rising = rising;
        Ok(())
    }

    /// How many members are in ShortLex order, from the identity on, with the word of this link behind the others.
    fn rising_with(&self, link: Link) -> u32
        requires member { link.rest < length self.now }
        requires letters { link.letters ≡ length (word_at self.now link.rest) + 1 }
        ensures { AreRising (self.now ++ (link.first ∷ word_at self.now link.rest) ∷ []) result }
    {
        if self.are_in_order() && self.last_is_before(link) {
            self.rising + 1
        } else {
            self.rising
        }
    }

    /// Whether the last member comes before the word of a link in ShortLex order, where all members are in that order.
    ///
    /// So of words with one first letter and one length the one comes first whose rest has the lesser number.
    fn last_is_before(&self, link: Link) -> bool
        requires rising { IsRising self.now }
        requires member { link.rest < length self.now }
        requires letters { link.letters ≡ length (word_at self.now link.rest) + 1 }
        ensures { IsTrue result ↔ (shortlex_cmp (word_at self.now (length self.now - 1)) (link.first ∷ word_at self.now link.rest)
            ≡ Less) }
    {
        let last = self.links[self.links.len() - 1];
        if last.letters != link.letters {
            return last.letters < link.letters;
        }
        if last.first != link.first {
            return last.first < link.first;
        }
        last.rest < link.rest
    }

    /// Only the first members, so many.
    pub(crate) fn cut_back(&mut self, count: u32)
        requires some { 1 ≤ count }
        requires within { count ≤ length self.old }
        ensures { self.new ≡ take count self.old }
    {
        self.links.truncate(count as usize);
        self.rising = self.rising.min(count);
    }
}
