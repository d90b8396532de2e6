//! Where the labels of a source are defined.
ghost use Rattle.std.specs.Prelude.{◌≡◌, ℕ, List, ◌+◌, ◌<◌, ◌^◌, IfOk, length, if◌then◌else◌};
ghost use Rattle.std.specs.Str.{bytes_eq};
ghost use Rattle.asm_words.specs.Mnemonics.{either};
ghost use Rattle.rv32_asm.specs.Labels.{definitions, defined_at, defined_by};
ghost use Rattle.rv32_asm.specs.Tree.{in_tree};

use crate::here::moved;
use crate::lines::read_line;
use crate::refusal::AsmCause;
use crate::statement::Statement;
use asm_words::{Word, before_mark, behind_mark};
use dash_base::OutOfMemory;
use std::alloc::Global;
use std::collections::BTreeMap;

/// Where a label is defined: the number of the line, and the address that it has there.
#[derive(Clone, Copy, Debug, PartialEq, Eq)]
pub struct Definition {
    pub line: u32,
    pub address: u64,
}

/// The labels of a source.
#[derive(Drop)]
pub struct Labels<'a> {
    map: BTreeMap<&'a [u8], Definition>,
}

impl<'a> Labels<'a> {
    /// No label.
    #[tactic(auto, unfolding(crate::specs::Tree::in_tree))]
    fn new(alloc: Global) -> Labels<'a>
        ensures { (q : List ℕ) → in_tree result.map q ≡ None }
    {
        Labels {
            map: BTreeMap::new(alloc),
        }
    }

    /// Where a label is defined.
    #[tactic(auto, unfolding(crate::specs::Tree::in_tree))]
    pub fn of(&self, name: &[u8]) -> Option<Definition>
        ensures { result ≡ in_tree self.now.map name.now }
    {
        self.map.get(name).copied()
    }

    /// Adds a definition of a label that has none.
    #[tactic(auto, unfolding(crate::specs::Tree::in_tree))]
    fn add(&mut self, name: &'a [u8], definition: Definition) -> Result<(), OutOfMemory>
        ensures { IfOk result (λ _. (q : List ℕ) → in_tree self.new.map q ≡ either (in_tree self.old.map q) (if bytes_eq name.now q then Some definition else None)) }
    {
        if !self.map.contains_key(name) {
            self.map.insert(name, definition)?;
        }
        Ok(())
    }

    /// Adds the definition that a line is, where it is one.
    #[tactic(auto, using(crate::proofs::Adding::either_none))]
    fn define(
        &mut self,
        place: Option<u64>,
        line: u32,
        said: &Result<Statement<'a>, AsmCause>,
    ) -> Result<(), OutOfMemory>
        ensures { IfOk result (λ _. (q : List ℕ) → in_tree self.new.map q
            ≡ either (in_tree self.old.map q) (defined_by place line said.now q)) }
    {
        match said {
            Ok(Statement::Label(name)) => self.add(name.bytes(), defined_at(place, line)),
            _ => Ok(()),
        }
    }

    /// The labels of a source.
    ///
    /// # Errors
    ///
    /// `OutOfMemory` alone.
    pub fn collect(alloc: Global, source: &'a [u8]) -> Result<Labels<'a>, OutOfMemory>
        requires { length source.now + 2 < 2 ^ 32 }
        ensures { IfOk result (λ labels. (q : List ℕ) → in_tree labels.map q ≡ definitions source.now q) }
    {
        let mut labels = Labels::new(alloc);
        let mut rest = Some(Word::new(source));
        let mut place = None;
        let mut line = 1_u32;
        while let Some(text) = rest {
            let said = read_line(before_mark(text.bytes(), b'\n'));
            labels.define(place, line, &said)?;
            place = moved(place, &said);
            line += 1;
            rest = behind_mark(text.bytes(), b'\n');
        }
        Ok(labels)
    }
}

fn defined_at(place: Option<u64>, line: u32) -> Definition
    ensures { result ≡ defined_at place line }
{
    Definition {
        line,
        address: place.unwrap_or(0),
    }
}
