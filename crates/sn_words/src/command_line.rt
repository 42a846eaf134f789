//! What words ask for.

ghost use Rattle.std.specs.Prelude.{◌≡◌, ◌⊎◌, ◌+◌, ◌<◌, ◌≤◌, ◌↔◌, ℕ, List, IsTrue, IfOk, IfSome, IfNone, MatchOption, MatchResult, Some, Ok, Err, length, slice_get, codes};
ghost use Rattle.sn_words.specs.Command.{DepartsAt, IsCommand, TakesFiles, TakesSeed, command_word};
ghost use Rattle.sn_words.specs.Options.{Options};
ghost use Rattle.sn_words.specs.Reading.{HasFiles, LacksFile};
ghost use Rattle.sn_words.specs.WordForms.{IsFileWord, IsSeedWord};

use crate::fault::WordFault;
use crate::laws::{departs_once, one_meaning, within_limits};
use crate::limits::DEFAULT_PITCH;
use crate::number::{is_file_word, read_seed};
use crate::options::{Command, Opts};
use crate::setting::read_settings;
use crate::words::Words;
use sqlite_items::Items;
use std::alloc::Global;

/// What words ask for, or the place of the first word after which no accepted list of words continues.
///
/// The words are the command, its file words or its seed, and then, for the commands with files, options and assignments in
/// any order: `--cell N` in micrometres, `--raw X0,Y0,Z0,X1,Y1,Z1` in millimetres, and `NAME=VALUE`. Places are counted from
/// 1; a missing word has the place after the last.
pub fn values(alloc: Global, w: &Words) -> Result<Opts, WordFault>
    ensures ok { IfOk result (λ o. IsCommand w.now o) }
    ensures at { (place : ℕ) → result ≡ Err (WordFault.At place) → DepartsAt w.now place }
    // Words that are accepted are read, and others are refused at the place where they depart, unless memory runs out.
    ensures accepted { (o : Options) → IsCommand w.now o → MatchResult result (λ p. p ≡ o) (λ e. e ≡ WordFault.Memory) }
    ensures departs { (place : ℕ) → DepartsAt w.now place
        → MatchResult result (λ p. ⊥) (λ e. (e ≡ WordFault.At place) ⊎ (e ≡ WordFault.Memory)) }
{
    one_meaning();
    departs_once();
    let Some(command) = command_of(w) else {
        return Err(WordFault::At(1));
    };
    match file_count(command) {
        Some(count) => file_command(alloc, w, command, count),
        None => seed_command(alloc, w, command),
    }
}

/// What words ask for whose command takes so many files.
fn file_command(alloc: Global, w: &Words, command: Command, count: usize) -> Result<Opts, WordFault>
    requires word { slice_get w.now 0 ≡ Some (command_word command) }
    requires takes { TakesFiles command count }
    ensures ok { IfOk result (λ o. IsCommand w.now o) }
    ensures at { (place : ℕ) → result ≡ Err (WordFault.At place) → DepartsAt w.now place }
{
    within_limits();
    let files = file_words(alloc, w, count)?;
    let seen = read_settings(alloc, w, count + 1)?;
    Ok(Opts {
        command,
        files,
        seed: 0,
        pitch: seen.pitch.unwrap_or(DEFAULT_PITCH),
        raw: seen.raw,
        sets: seen.sets,
    })
}

/// What words ask for whose command takes a seed.
fn seed_command(alloc: Global, w: &Words, command: Command) -> Result<Opts, WordFault>
    requires word { slice_get w.now 0 ≡ Some (command_word command) }
    requires takes { TakesSeed command }
    ensures ok { IfOk result (λ o. IsCommand w.now o) }
    ensures at { (place : ℕ) → result ≡ Err (WordFault.At place) → DepartsAt w.now place }
{
    within_limits();
    let Some(seed) = seed_at(w, 1) else {
        return Err(WordFault::At(2));
    };
    if w.len() > 2 {
        return Err(WordFault::At(3));
    }
    Ok(Opts {
        command,
        files: Words::new(alloc),
        seed,
        pitch: DEFAULT_PITCH,
        raw: None,
        sets: Items::new(alloc),
    })
}

/// The command that the first word is.
fn command_of(w: &Words) -> Option<Command>
    ensures some { IfSome result (λ command. slice_get w.now 0 ≡ Some (command_word command)) }
    ensures none { IfNone result ((command : Command) → ¬ (slice_get w.now 0 ≡ Some (command_word command))) }
{
    if w.len() == 0 {
        return None;
    }
    let word = w.get(0);
    if word == b"compile".as_slice() {
        Some(Command::Compile)
    } else if word == b"verify".as_slice() {
        Some(Command::Verify)
    } else if word == b"report".as_slice() {
        Some(Command::Report)
    } else if word == b"make".as_slice() {
        Some(Command::Make)
    } else if word == b"trial".as_slice() {
        Some(Command::Trial)
    } else {
        None
    }
}

/// How many file words follow a command's word, where no seed does.
fn file_count(command: Command) -> Option<usize>
    ensures { MatchOption result (TakesSeed command) (λ n. TakesFiles command n) }
{
    match command {
        Command::Compile => Some(1),
        Command::Verify => Some(2),
        Command::Report => Some(1),
        Command::Make => None,
        Command::Trial => None,
    }
}

/// The file words behind the first word.
fn file_words(alloc: Global, w: &Words, count: usize) -> Result<Words, WordFault>
    requires some { 0 < length w.now }
    requires few { count ≤ 2 }
    ensures ok { IfOk result (λ files. HasFiles w.now count files) }
    ensures at { (place : ℕ) → result ≡ Err (WordFault.At place) → LacksFile w.now count place }
{
    let mut files = Words::new(alloc);
    for k in 0..count {
        let Some(file) = file_at(w, k + 1) else {
            return Err(WordFault::At(k + 2));
        };
        files.push(file)?;
    }
    Ok(files)
}

/// The file word at a place.
fn file_at(w: &Words, k: usize) -> Option<&[u8]>
    ensures some { IfSome result (λ word. (slice_get w.now k ≡ Some word.now) × IsFileWord word.now) }
    ensures none { IfNone result ((word : List ℕ) → slice_get w.now k ≡ Some word → ¬ IsFileWord word) }
{
    if k >= w.len() {
        return None;
    }
    let word = w.get(k);
    if is_file_word(word) { Some(word) } else { None }
}

/// The seed that the word at a place is.
fn seed_at(w: &Words, k: usize) -> Option<u32>
    ensures some { IfSome result (λ seed. (word : List ℕ) × (slice_get w.now k ≡ Some word) × IsSeedWord word seed) }
    ensures none { IfNone result ((word : List ℕ) (seed : ℕ) → slice_get w.now k ≡ Some word → ¬ IsSeedWord word seed) }
{
    if k >= w.len() {
        return None;
    }
    read_seed(w.get(k))
}
