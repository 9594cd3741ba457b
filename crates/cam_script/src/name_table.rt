//! Names and their places.
ghost use Rattle.std.specs.Prelude.{◌≡◌, ◌≤◌, ◌<◌, [], ◌∷◌, ◌++◌, List, ℕ, bytes_eq, length, Ok, Err, IfOk, IfSome, IsTrue, OnOk, OnErr};
ghost use Rattle.cam_words.specs.Words.{text_of, place_of, IsFurther, IsInLine};
ghost use Rattle.cam_words.specs.Numbers.{is_name, new_name_at, declared_at};
ghost use Rattle.cam_script.specs.NameTable.{place_in, or_at};

use cam_base::NoMemory;
use cam_words::{Cause, Label, Labels, Line, ScriptFault, Word, is_name};
use std::alloc::Global;
use std::collections::HashMap;
use std::marker::Model;

/// Names, in order. A table of hashes stands beside the list, so that a look-up costs no more where there are many.
#[derive(Drop)]
pub(crate) struct NameTable {
    list: Vec<Label>,
    /// The first place of each name.
    places: HashMap<Vec<u8>, usize>,
}

impl Model for NameTable {
    ghost use Rattle.std.specs.Prelude.{◌≡◌, List, ℕ};
    ghost use Rattle.cam_words.specs.Words.{place_of};
    ghost use Rattle.cam_script.specs.NameTable.{place_in};

    ghost Value = { List (List ℕ) };

    ghost view = { λ n. n.list.items };

    ghost invariant = { λ n. (name : List ℕ)
        → place_in n.places name ≡ place_of n.list.items name };
}

impl NameTable {
    /// No name. It takes no memory.
    pub fn new(alloc: Global) -> NameTable
        ensures { result ≡ [] }
    {
        NameTable {
            list: Vec::new(alloc),
            places: HashMap::new(alloc),
        }
    }

    /// The first place of a name among them.
    pub fn place_of(&self, name: &[u8]) -> Option<usize>
        ensures value { result ≡ place_of self.now name.now }
        ensures within { IfSome result (λ place. place < length self.now) }
    {
        self.places.get(name).copied()
    }

    /// Adds a name at the end.
    pub fn push(&mut self, name: Label) -> Result<(), NoMemory>
        ensures ok { OnOk result (self.new ≡ self.old ++ name ∷ []) }
        ensures err { OnErr result (self.new ≡ self.old) }
    {
        let place = self.list.len();
        self.list.reserve(1)?;
        put(
            self.allocator(),
            &mut self.places,
            name.as_str().as_bytes(),
            place,
        )?;
        self.list.push_reserved(name);
        Ok(())
    }

    /// The list alone. It takes no memory.
    pub fn into_labels(self) -> Labels
        ensures { result ≡ self }
    {
        let NameTable { list, places: _ } = self;
        Labels::from_vec(list)
    }

    /// Where they are kept.
    pub fn allocator(&self) -> Global {
        *self.list.allocator()
    }
}

/// Puts a name at its place, unless it has one.
fn put(
    alloc: Global,
    places: &mut HashMap<Vec<u8>, usize>,
    name: &[u8],
    place: usize,
) -> Result<(), NoMemory>
    ensures ok { OnOk result ((q : List ℕ)
        → place_in places.new q ≡ or_at place (bytes_eq name.now q) (place_in places.old q)) }
    ensures err { OnErr result ((q : List ℕ) → place_in places.new q ≡ place_in places.old q) }
{
    if places.contains_key(name) {
        return Ok(());
    }
    let key = Vec::from_slice(alloc, name)?;
    places.insert(key, place)?;
    Ok(())
}

/// A new name, none of these: its word.
#[tactic(auto, unfolding(cam_words::specs::Numbers::new_name_at))]
pub(crate) fn new_name_at(line: &Line, at: usize, names: &NameTable) -> Result<Word, ScriptFault>
    requires { at ≤ length line.now.bytes.now }
    ensures value { result ≡ new_name_at names.now line.now.number at line.now.bytes.now }
    ensures word { IfOk result (λ word. (at ≤ word.start) × IsInLine line.now.bytes.now word) }
    ensures name { IfOk result (λ word. IsTrue (is_name (text_of word line.now.bytes.now))) }
{
    let word = line.word_at(at)?;
    if !is_name(line.text(word)) {
        return Err(line.fault(word.start, Cause::InvalidName));
    }
    if names.place_of(line.text(word)).is_some() {
        return Err(line.fault(word.start, Cause::DeclaredAgain));
    }
    Ok(word)
}

/// The place of one of these names, and the place after the word.
#[tactic(auto, unfolding(cam_words::specs::Numbers::declared_at))]
pub(crate) fn declared_at(
    line: &Line,
    at: usize,
    names: &NameTable,
) -> Result<(usize, usize), ScriptFault>
    requires { at ≤ length line.now.bytes.now }
    ensures value { result ≡ declared_at names.now line.now.number at line.now.bytes.now }
    ensures place { IfOk result (λ read. read.0 < length names.now) }
    ensures end { IfOk result (λ read. IsFurther at line.now.bytes.now read.1) }
{
    let word = line.word_at(at)?;
    match names.place_of(line.text(word)) {
        Some(place) => Ok((place, word.end)),
        None => Err(line.fault(word.start, Cause::Undeclared)),
    }
}
