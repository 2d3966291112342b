//! What the lines of blocks are answered.
use crate::session::Said;
use std::alloc::{AllocError, Global};
use std::marker::Model;
use std::mem;

/// Texts that answer lines, and the number of the first refusal among them.
#[derive(Drop)]
pub struct AnsweredText {
    text: Vec<u8>,
    refused: Option<u8>,
}

impl Model for AnsweredText {
    ghost use Rattle.cox_shell.specs.AnsweredText.{Numbered};

    ghost Value = { Numbered };

    ghost view = { λ answered. record { text = answered.text.items; refused = answered.refused } };
}

impl AnsweredText {
    ghost use Rattle.std.specs.Prelude.{◌≡◌, [], ◌++◌, OnOk, OnErr};
    ghost use Rattle.cox_shell.specs.AnsweredText.{no_text, first_number, then_numbered, number_said, said_by};

    /// Nothing.
    pub fn new(alloc: Global) -> AnsweredText
        ensures { result ≡ no_text }
    {
        AnsweredText {
            text: Vec::new(alloc),
            refused: None,
        }
    }

    /// Takes the text, behind which more is to be put.
    pub fn take(&mut self) -> Vec<u8>
        ensures text { result.items ≡ self.old.text }
        ensures refused { self.new ≡ record { text = []; refused = self.old.refused } }
    {
        let alloc = *self.text.allocator();
        mem::replace(&mut self.text, Vec::new(alloc))
    }

    /// Puts the text back, with what was said to the line behind it.
    pub fn put(&mut self, text: Vec<u8>, said: Said)
        ensures { self.new ≡ record { text = text.items; refused = first_number self.old.refused (number_said said) } }
    {
        self.text = text;
        if self.refused.is_none() {
            self.refused = said.number();
        }
    }

    /// Appends what the lines that follow are answered.
    pub fn append(&mut self, mut more: AnsweredText) -> Result<(), AllocError>
        ensures { OnOk result (self.new ≡ then_numbered self.old more) }
    {
        self.text.append(&mut more.text)?;
        if self.refused.is_none() {
            self.refused = more.refused;
        }
        Ok(())
    }

    /// Puts the text behind what `out` has. If that is nothing, the text becomes that of `out`, and is not copied.
    pub fn put_behind(self, out: &mut Vec<u8>) -> Result<(), AllocError>
        ensures items { OnOk result (out.new.items ≡ out.old.items ++ self.text) }
        ensures kept { OnErr result (out.new.items ≡ out.old.items) }
    {
        if out.is_empty() {
            *out = self.text;
            return Ok(());
        }
        out.extend_from_slice(self.text.as_slice())
    }

    /// What is said to the lines.
    pub fn said(&self) -> Said
        ensures { result ≡ said_by self.now.refused }
    {
        match self.refused {
            Some(number) => Said::Refused(number),
            None => Said::Answered,
        }
    }
}
