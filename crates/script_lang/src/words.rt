// What a run of a line is taken for.
ghost use Rattle.std.specs.Prelude.{◌≡◌, ◌≤◌, nat_eq, bytes_eq, codes, length, max};
ghost use Rattle.std.specs.List.{common_prefix_len};
ghost use Rattle.script_lang.specs.Readings.{Judges, IsWithin, whole};
ghost use Rattle.script_lang.specs.Scans.{face_in};
ghost use Rattle.script_lang.specs.Words.{sign_run, number_of, name_of, integer_of, simplex_of, start_of, face_of, part_of, chain_of, space_common, space_word_of, command_common, command_word_of};

use crate::faults::Stop;
use crate::scan::Scan;
use crate::simplices::SimplexText;
use std::alloc::Global;
use term_lang::{FaceText, Name};

/// The word behind the opening parenthesis of a space.
#[derive(Clone, Copy, Debug)]
pub enum SpaceWord {
    Sphere,
    Product,
    Suspension,
    KZ1,
    Loop,
    Path,
    Bundle,
    Table,
}

/// The word behind the opening parenthesis of a command.
#[derive(Clone, Copy, Debug)]
pub enum CommandWord {
    Field,
    Setf,
    Names,
    Betti,
    Homology,
    Boundary,
    Express,
}

/// How deep simplices lie within one another at most: 32 signs enclose the innermost.
const MOST_SIMPLICES: u32 = 33;

fn is_word(run: &[u8], word: &[u8]) -> bool
    ensures { result ≡ bytes_eq run.now word.now }
{
    run == word
}

/// How many bytes two words have in common from the front on.
fn common(run: &[u8], word: &[u8]) -> usize
    ensures count { result ≡ common_prefix_len nat_eq run.now word.now }
    ensures within { result ≤ length run.now }
{
    let [a, run @ ..] = run else { return 0 };
    let [b, word @ ..] = word else { return 0 };
    if a == b { 1 + common(run, word) } else { 0 }
}

/// This run alone.
pub fn this(run: &[u8], text: &[u8]) -> Result<(), Stop>
    ensures judges { Judges result (sign_run text.now run.now) }
    ensures within { IsWithin (length run.now) result }
{
    if is_word(run, text) {
        Ok(())
    } else {
        Err(Stop::Fault(run.len()))
    }
}

/// A number.
#[tactic(auto, unfolding(crate::specs::Words::number_of))]
pub fn number(run: &[u8]) -> Result<u64, Stop>
    ensures { Judges result (number_of run.now) }
{
    let mut scan = Scan { rest: run };
    let n = scan.number()?;
    scan.end()?;
    Ok(n)
}

/// A name.
#[tactic(auto, unfolding(crate::specs::Words::name_of))]
pub fn name(run: &[u8]) -> Result<Name, Stop>
    ensures { Judges result (name_of run.now) }
{
    let mut scan = Scan { rest: run };
    let name = scan.name()?;
    scan.end()?;
    Ok(name)
}

/// An integer.
#[tactic(auto, unfolding(crate::specs::Words::integer_of))]
pub fn integer(run: &[u8]) -> Result<i64, Stop>
    ensures { Judges result (integer_of run.now) }
{
    let mut scan = Scan { rest: run };
    let n = scan.integer()?;
    scan.end()?;
    Ok(n)
}

fn whole_face(alloc: Global, run: &[u8]) -> Result<FaceText, Stop>
    ensures { Judges result (whole face_in run.now) }
{
    let mut scan = Scan { rest: run };
    let face = scan.face(alloc)?;
    scan.end()?;
    Ok(face)
}

/// A simplex.
#[tactic(auto, unfolding(crate::specs::Words::simplex_of))]
pub fn simplex(alloc: Global, run: &[u8]) -> Result<SimplexText, Stop>
    ensures { Judges result (simplex_of run.now) }
{
    let mut scan = Scan { rest: run };
    let simplex = scan.simplex(alloc, MOST_SIMPLICES)?;
    scan.end()?;
    Ok(simplex)
}

/// The start of a space: None for an opening parenthesis, or a name.
#[tactic(auto, unfolding(crate::specs::Words::start_of))]
pub fn start(run: &[u8]) -> Result<Option<Name>, Stop>
    ensures { Judges result (start_of run.now) }
{
    if is_word(run, b"(") {
        return Ok(None);
    }
    Ok(Some(name(run)?))
}

/// None for a closing parenthesis, or a face.
#[tactic(auto, unfolding(crate::specs::Words::face_of))]
pub fn face(alloc: Global, run: &[u8]) -> Result<Option<FaceText>, Stop>
    ensures { Judges result (face_of run.now) }
{
    if is_word(run, b")") {
        return Ok(None);
    }
    Ok(Some(whole_face(alloc, run)?))
}

/// Whether a part in parentheses comes, or their end.
#[tactic(auto, unfolding(crate::specs::Words::part_of))]
pub fn part(run: &[u8]) -> Result<bool, Stop>
    ensures judges { Judges result (part_of run.now) }
    ensures within { IsWithin (length run.now) result }
{
    if is_word(run, b"(") {
        return Ok(true);
    }
    if is_word(run, b")") {
        return Ok(false);
    }
    Err(Stop::Fault(run.len()))
}

/// Whether a chain has terms, or is 0.
#[tactic(auto, unfolding(crate::specs::Words::chain_of))]
pub fn chain(run: &[u8]) -> Result<bool, Stop>
    ensures judges { Judges result (chain_of run.now) }
    ensures within { IsWithin (length run.now) result }
{
    if is_word(run, b"(") {
        return Ok(true);
    }
    if is_word(run, b"0") {
        return Ok(false);
    }
    Err(Stop::Fault(run.len() - common(run, b"0")))
}

/// The most bytes that a run has in common with a word of a space, from the front on.
fn common_with_spaces(run: &[u8]) -> usize
    ensures count { result ≡ space_common run.now }
    ensures within { result ≤ length run.now }
{
    let flat = common(run, b"sphere").max(common(run, b"crts-prdc"));
    let shifted = common(run, b"suspension").max(common(run, b"k-z-1"));
    let twisted = common(run, b"loop-space").max(common(run, b"path-space"));
    let listed = common(run, b"bundle").max(common(run, b"table"));
    flat.max(shifted).max(twisted.max(listed))
}

/// The word of a space.
#[tactic(auto, unfolding(crate::specs::Words::space_word_of))]
pub fn space_word(run: &[u8]) -> Result<SpaceWord, Stop>
    ensures judges { Judges result (space_word_of run.now) }
    ensures within { IsWithin (length run.now) result }
{
    if is_word(run, b"sphere") {
        return Ok(SpaceWord::Sphere);
    }
    if is_word(run, b"crts-prdc") {
        return Ok(SpaceWord::Product);
    }
    if is_word(run, b"suspension") {
        return Ok(SpaceWord::Suspension);
    }
    if is_word(run, b"k-z-1") {
        return Ok(SpaceWord::KZ1);
    }
    if is_word(run, b"loop-space") {
        return Ok(SpaceWord::Loop);
    }
    if is_word(run, b"path-space") {
        return Ok(SpaceWord::Path);
    }
    if is_word(run, b"bundle") {
        return Ok(SpaceWord::Bundle);
    }
    if is_word(run, b"table") {
        return Ok(SpaceWord::Table);
    }
    Err(Stop::Fault(run.len() - common_with_spaces(run)))
}

/// The most bytes that a run has in common with a word of a command, from the front on.
fn common_with_commands(run: &[u8]) -> usize
    ensures count { result ≡ command_common run.now }
    ensures within { result ≤ length run.now }
{
    let named = common(run, b"field").max(common(run, b"setf"));
    let listed = common(run, b"names").max(common(run, b"betti"));
    let cycles = common(run, b"homology").max(common(run, b"boundary"));
    named.max(listed).max(cycles.max(common(run, b"express")))
}

/// The word of a command.
#[tactic(auto, unfolding(crate::specs::Words::command_word_of))]
pub fn command_word(run: &[u8]) -> Result<CommandWord, Stop>
    ensures judges { Judges result (command_word_of run.now) }
    ensures within { IsWithin (length run.now) result }
{
    if is_word(run, b"field") {
        return Ok(CommandWord::Field);
    }
    if is_word(run, b"setf") {
        return Ok(CommandWord::Setf);
    }
    if is_word(run, b"names") {
        return Ok(CommandWord::Names);
    }
    if is_word(run, b"betti") {
        return Ok(CommandWord::Betti);
    }
    if is_word(run, b"homology") {
        return Ok(CommandWord::Homology);
    }
    if is_word(run, b"boundary") {
        return Ok(CommandWord::Boundary);
    }
    if is_word(run, b"express") {
        return Ok(CommandWord::Express);
    }
    Err(Stop::Fault(run.len() - common_with_commands(run)))
}
