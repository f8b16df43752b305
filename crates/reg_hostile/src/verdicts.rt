//! What becomes of an image: the fault that refuses it, or a hive whose own image tells the same.
use crate::hives::{Subject, dumped, image_of};
use anyhow::Result;
use reg_fixtures::PlainHive;
use reg_tree_image::{LoadFault, NumberedTree, load_anew, load_numbered};
use reg_tree_text::dump;
use std::alloc::Global;
use std::fmt;
use std::io::Read;

/// What became of an image.
#[derive(Clone, Copy, Debug, PartialEq, Eq)]
pub enum Verdict {
    /// It isn't loaded.
    Refused(LoadFault),
    /// It is loaded, and the hive's own image loads to the same dump.
    Kept,
    /// It is loaded, and the hive's own image isn't, or to another dump.
    Lost,
    /// A load that builds its bins anew in any case tells something else of it than its load does.
    Astray,
}

/// Whether a hive's own image loads to the hive's dump.
pub fn is_kept<H: Subject>(alloc: Global, hive: &H) -> Result<bool> {
    let told = dumped(alloc, hive)?;
    let bytes = image_of(alloc, hive)?;
    let mut input = bytes.as_slice();
    match H::loaded(alloc, &mut input) {
        Ok(again) => Ok(dumped(alloc, &again)?.as_slice() == told.as_slice()),
        Err(_) => Ok(false),
    }
}

/// The verdict on a hive.
pub fn verdict_on<H: Subject>(alloc: Global, hive: &H) -> Result<Verdict> {
    Ok(if is_kept(alloc, hive)? {
        Verdict::Kept
    } else {
        Verdict::Lost
    })
}

/// The verdict on a reader's image.
pub fn judge<R: Read>(alloc: Global, input: &mut R) -> Result<Verdict> {
    match PlainHive::loaded(alloc, input) {
        Ok(hive) => verdict_on(alloc, &hive),
        Err(fault) => Ok(Verdict::Refused(fault)),
    }
}

/// What is told of a tree that was loaded, or of the fault that it met.
fn told_of(alloc: Global, loaded: Result<NumberedTree, LoadFault>) -> Result<Vec<u8>> {
    match loaded {
        Ok(numbered) => {
            let mut text = Vec::new(alloc);
            dump(alloc, &numbered.tree, &mut text)?;
            Ok(text)
        }
        Err(fault) => Ok(format!(in alloc; "load {}", fault.number())?.into_bytes()),
    }
}

/// Whether an image loads to trees of one dump, or meets one fault, where its bins may be taken as they stand and where they are built
/// anew in any case.
fn is_same_anew(alloc: Global, image: &[u8]) -> Result<bool> {
    let mut input = image;
    let told = told_of(alloc, load_numbered(alloc, &mut input))?;
    let mut again = image;
    let anew = told_of(alloc, load_anew(alloc, &mut again))?;
    Ok(told.as_slice() == anew.as_slice())
}

/// The verdict on an image.
pub fn judge_bytes(alloc: Global, image: &[u8]) -> Result<Verdict> {
    if !is_same_anew(alloc, image)? {
        return Ok(Verdict::Astray);
    }
    let mut input = image;
    judge(alloc, &mut input)
}

/// How many images met each verdict.
#[derive(Clone, Copy)]
pub struct Tally {
    /// Those refused, by the fault's number.
    refused: [u32; 15],
    kept: u32,
    lost: u32,
    astray: u32,
}

impl Tally {
    /// Of no image.
    pub const NONE: Tally = Tally {
        refused: [0; 15],
        kept: 0,
        lost: 0,
        astray: 0,
    };

    /// Counts one verdict more.
    pub fn add(&mut self, verdict: Verdict) {
        match verdict {
            Verdict::Refused(fault) => {
                if let Some(count) = self.refused.get_mut(usize::from(fault.number())) {
                    *count = count.saturating_add(1);
                }
            }
            Verdict::Kept => self.kept = self.kept.saturating_add(1),
            Verdict::Lost => self.lost = self.lost.saturating_add(1),
            Verdict::Astray => self.astray = self.astray.saturating_add(1),
        }
    }
}

impl fmt::Display for Tally {
    fn fmt<W: fmt::Write>(&self, f: &mut fmt::Formatter<W>) -> fmt::Result {
        let kept = self.kept;
        let lost = self.lost;
        let astray = self.astray;
        write!(f, "kept {kept}, lost {lost}, astray {astray}, faults")?;
        for (number, count) in self.refused.iter().enumerate() {
            if *count > 0 {
                write!(f, " {number}:{count}")?;
            }
        }
        Ok(())
    }
}
