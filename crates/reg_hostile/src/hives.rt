//! Hives, made by scripts, and what is told of them.
//!
//! Whoever owns a hive hands it on to functions over any [`Subject`], which are checked without all that a hive is made of.
use anyhow::Result;
use reg_callbacks::{CallbackFault, Cookie, NoCallback};
use reg_calls::Hive;
use reg_fixtures::{PlainHive, Registry};
use reg_image::{LoadFault, image, load};
use reg_script::{FRESH_DESCRIPTOR, ScriptFault, run};
use reg_tree::Tree;
use reg_tree_text::dump;
use std::alloc::{AllocError, Global};
use std::io::{Read, Write};

/// What is loaded, asked and written here: a hive.
pub trait Subject: Registry {
    /// What a reader's image loads to.
    fn loaded<R: Read>(alloc: Global, input: &mut R) -> Result<Self, LoadFault>;

    /// A hive of a tree.
    fn of_tree(alloc: Global, tree: Tree) -> Result<Self, AllocError>;

    /// Runs a script on it, and writes the replies.
    fn ran<W: Write>(
        &mut self,
        alloc: Global,
        script: &[u8],
        writer: &mut W,
    ) -> Result<(), ScriptFault>;

    /// Its image, with moment 0 and sequence 0.
    fn imaged(&self, alloc: Global) -> Result<Vec<u8>, AllocError>;

    /// Registers a callback that lets every call go on.
    fn add_callback(&mut self) -> Result<Cookie, CallbackFault<NoCallback>>;

    /// Takes it out, and tells whether it was there.
    fn take_callback(&mut self, cookie: Cookie) -> bool;
}

impl Subject for PlainHive {
    fn loaded<R: Read>(alloc: Global, input: &mut R) -> Result<PlainHive, LoadFault> {
        let hive = load(alloc, input)?;
        match PlainHive::new(hive) {
            Ok(seated) => Ok(seated),
            Err(_) => Err(LoadFault::Memory),
        }
    }

    fn of_tree(alloc: Global, tree: Tree) -> Result<PlainHive, AllocError> {
        let Ok(hive) = Hive::from_tree(alloc, tree) else {
            return Err(AllocError);
        };
        match PlainHive::new(hive) {
            Ok(seated) => Ok(seated),
            Err(_) => Err(AllocError),
        }
    }

    fn ran<W: Write>(
        &mut self,
        alloc: Global,
        script: &[u8],
        writer: &mut W,
    ) -> Result<(), ScriptFault> {
        let mut input = script;
        run(alloc, &mut input, writer, &mut self.hive, &mut self.shares)
    }

    fn imaged(&self, alloc: Global) -> Result<Vec<u8>, AllocError> {
        match image(alloc, &self.hive, 0, 0) {
            Ok(bytes) => Ok(bytes),
            Err(_) => Err(AllocError),
        }
    }

    fn add_callback(&mut self) -> Result<Cookie, CallbackFault<NoCallback>> {
        self.hive.register(NoCallback, 1)
    }

    fn take_callback(&mut self, cookie: Cookie) -> bool {
        self.hive.unregister(cookie).is_ok()
    }
}

/// A hive of the root `ROOT`, made at moment 0.
pub fn fresh_hive<H: Subject>(alloc: Global) -> Result<H> {
    Ok(H::fresh(alloc, b"ROOT", &FRESH_DESCRIPTOR, 0)?)
}

/// The replies of a script on a hive.
pub fn run_on<H: Subject>(alloc: Global, hive: &mut H, script: &[u8]) -> Result<Vec<u8>> {
    let mut replies = Vec::new(alloc);
    hive.ran(alloc, script, &mut replies)?;
    Ok(replies)
}

/// The dump of a hive.
pub fn dumped<H: Subject>(alloc: Global, hive: &H) -> Result<Vec<u8>> {
    let mut text = Vec::new(alloc);
    dump(alloc, hive.tree(), &mut text)?;
    Ok(text)
}

/// The image of a hive, with moment 0 and sequence 0.
pub fn image_of<H: Subject>(alloc: Global, hive: &H) -> Result<Vec<u8>> {
    Ok(hive.imaged(alloc)?)
}

/// The image of a fresh hive after a script.
pub fn scripted<H: Subject>(alloc: Global, script: &[u8]) -> Result<Vec<u8>> {
    let mut hive: H = fresh_hive(alloc)?;
    let _replies = run_on(alloc, &mut hive, script)?;
    image_of(alloc, &hive)
}
