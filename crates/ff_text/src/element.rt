//! Reads an element byte by byte.

ghost use Rattle.std.specs.Prelude.{◌≡◌, IfOk};
ghost use Rattle.ff_text.specs.Spelling.{is_blank};
ghost use Rattle.ff_text.specs.Scanning.{Moves, HasRoom};
ghost use Rattle.ff_text.specs.ElementScanning.{outside, opened, inside, before, entry_ended, in_entry, behind_entries, behind_slash, in_den, element_step, is_whole_stage, last_element};

use crate::scan::{Rules, Scan};
use crate::terms::{ElemText, EntryList};
use std::alloc::{AllocError, Global};
use std::mem;

/// Where the bytes that were read end.
#[derive(Clone, Copy)]
pub(crate) enum Stage {
    /// Before the first byte.
    Outside,
    /// Before an entry.
    Opened,
    /// In an entry.
    Entry,
    /// Behind `]`.
    Closed,
    /// Behind `]` and blanks.
    Spaced,
    /// Behind `/`.
    Slash,
    /// In a denominator of one term.
    OneTerm,
    /// Behind `(`.
    Paren,
    /// In a denominator in parentheses.
    Inner,
    /// Behind `)`.
    Done,
}

/// The part of an element that was read: its whole entries, and what was read of the polynomial behind them.
#[derive(Drop)]
pub(crate) struct ElementScan {
    pub stage: Stage,
    pub entries: EntryList,
    pub scan: Scan,
}

fn is_blank_byte(b: u8) -> bool
    ensures { result ≡ is_blank b }
{
    b == b' ' || b == b'\t' || b == b'\r'
}

impl ElementScan {
    pub fn new(alloc: Global) -> ElementScan
        ensures { result ≡ outside }
    {
        ElementScan {
            stage: Stage::Outside,
            entries: EntryList {
                entries: Vec::new(alloc),
            },
            scan: Scan::new(alloc),
        }
    }

    /// The bytes are a spelling.
    pub fn is_whole(&self) -> bool
        ensures { result ≡ is_whole_stage self.now.scan self.now.stage }
    {
        match self.stage {
            Stage::Closed | Stage::Done => true,
            Stage::OneTerm => self.scan.is_whole(),
            _ => false,
        }
    }

    /// Goes on by a byte, and answers whether it may stand there. If not, nothing changes.
    #[tactic(auto, unfolding(crate::specs::ElementScanning::element_step))]
    pub fn step(&mut self, alloc: Global, b: u8) -> Result<bool, AllocError>
        requires { HasRoom self.old.scan.position }
        ensures { IfOk result (Moves (element_step self.old b) self.old self.new) }
    {
        match self.stage {
            Stage::Outside => Ok(self.open(b)),
            Stage::Opened => self.before(alloc, Stage::Entry, b),
            Stage::Entry => self.in_entry(alloc, b),
            Stage::Closed | Stage::Spaced => Ok(self.behind_entries(b)),
            Stage::Slash => self.behind_slash(alloc, b),
            Stage::OneTerm => self.inside(alloc, false, Stage::OneTerm, b),
            Stage::Paren => self.before(alloc, Stage::Inner, b),
            Stage::Inner => self.in_den(alloc, b),
            Stage::Done => Ok(false),
        }
    }

    fn open(&mut self, b: u8) -> bool
        ensures { Moves (opened self.old b) self.old self.new result }
    {
        if b == b'[' {
            self.stage = Stage::Opened;
            return true;
        }
        false
    }

    /// A byte of a polynomial in x, or of a term if no sign may stand.
    fn inside(
        &mut self,
        alloc: Global,
        signs: bool,
        stage: Stage,
        b: u8,
    ) -> Result<bool, AllocError>
        requires { HasRoom self.old.scan.position }
        ensures { IfOk result (Moves (inside signs stage self.old b) self.old self.new) }
    {
        let goes_on = self.scan.step(alloc, Rules { y: false, signs }, b)?;
        if goes_on {
            self.stage = stage;
        }
        Ok(goes_on)
    }

    /// A blank before a polynomial, or its first byte.
    fn before(&mut self, alloc: Global, stage: Stage, b: u8) -> Result<bool, AllocError>
        requires { HasRoom self.old.scan.position }
        ensures { IfOk result (Moves (before stage self.old b) self.old self.new) }
    {
        if is_blank_byte(b) {
            return Ok(true);
        }
        self.inside(alloc, true, stage, b)
    }

    /// A byte that ends an entry.
    fn end_entry(&mut self, alloc: Global, stage: Stage) -> Result<bool, AllocError>
        ensures { IfOk result (Moves (entry_ended stage self.old) self.old self.new) }
    {
        if !self.scan.is_ended() {
            return Ok(false);
        }
        let scan = mem::replace(&mut self.scan, Scan::new(alloc));
        if let Some(terms) = scan.into_terms()? {
            self.entries.entries.push(terms)?;
        }
        self.stage = stage;
        Ok(true)
    }

    fn in_entry(&mut self, alloc: Global, b: u8) -> Result<bool, AllocError>
        requires { HasRoom self.old.scan.position }
        ensures { IfOk result (Moves (in_entry self.old b) self.old self.new) }
    {
        match b {
            b',' => self.end_entry(alloc, Stage::Opened),
            b']' => self.end_entry(alloc, Stage::Closed),
            _ => self.inside(alloc, true, Stage::Entry, b),
        }
    }

    fn behind_entries(&mut self, b: u8) -> bool
        ensures { Moves (behind_entries self.old b) self.old self.new result }
    {
        if is_blank_byte(b) {
            self.stage = Stage::Spaced;
            return true;
        }
        if b == b'/' {
            self.stage = Stage::Slash;
            return true;
        }
        false
    }

    fn behind_slash(&mut self, alloc: Global, b: u8) -> Result<bool, AllocError>
        requires { HasRoom self.old.scan.position }
        ensures { IfOk result (Moves (behind_slash self.old b) self.old self.new) }
    {
        if is_blank_byte(b) {
            return Ok(true);
        }
        if b == b'(' {
            self.stage = Stage::Paren;
            return Ok(true);
        }
        self.inside(alloc, false, Stage::OneTerm, b)
    }

    fn in_den(&mut self, alloc: Global, b: u8) -> Result<bool, AllocError>
        requires { HasRoom self.old.scan.position }
        ensures { IfOk result (Moves (in_den self.old b) self.old self.new) }
    {
        if b != b')' {
            return self.inside(alloc, true, Stage::Inner, b);
        }
        if !self.scan.is_ended() {
            return Ok(false);
        }
        self.stage = Stage::Done;
        Ok(true)
    }

    /// The element of the longest spelling in the bytes, if there is one.
    pub fn into_element(self) -> Result<Option<ElemText>, AllocError>
        ensures { IfOk result (λ e. e ≡ last_element self) }
    {
        let ElementScan {
            stage,
            entries,
            scan,
        } = self;
        match stage {
            Stage::Outside | Stage::Opened | Stage::Entry => Ok(None),
            Stage::OneTerm | Stage::Done => {
                let den = scan.into_terms()?;
                Ok(Some(ElemText { entries, den }))
            }
            _ => Ok(Some(ElemText { entries, den: None })),
        }
    }
}
