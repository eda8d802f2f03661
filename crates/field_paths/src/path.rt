//! Paths: the names between the dots.

ghost use Rattle.std.specs.Prelude.{◌≡◌, ◌<◌, ◌↔◌, Err, IfOk, None, Ok, Some, if◌then◌else◌, length, nat_lt, option_map};
ghost use Rattle.std.specs.Result.{result_err, result_map_both};
ghost use Rattle.std.specs.Str.{all_ascii_digits};
ghost use Rattle.field_paths.specs.Faults.{shown_as};
ghost use Rattle.field_paths.specs.Parts.{parts_in};
ghost use Rattle.field_paths.specs.ReadFaults.{Gives};
ghost use Rattle.query_model.specs.Queries.{path_fault};
ghost use Rattle.field_paths.specs.declared.path.PathFault.TheVariants.{Digits, Dollar, Empty, Long, Memory};
ghost use Rattle.query_model.specs.Paths.{IsPath, digits_part, dollar_part, empty_part, most_parts, part_fault, parts_of, read_path, too_long};

use bson_values::{Memory, Text};
use std::alloc::{AllocFailed, Global};
use std::marker::Model;
use std::slice;

/// The greatest number of parts of a path.
pub const MOST_PARTS: usize = 100;

/// Why a name is not a path.
#[derive(Clone, Copy, Debug, PartialEq, Eq)]
pub enum PathFault {
    /// The name or a part is empty.
    Empty,
    /// A part has digits and nothing else.
    Digits,
    /// A part begins with `$`.
    Dollar,
    /// It has more than 100 parts, none of which has a fault.
    Long,
    /// Out of memory.
    Memory,
}

impl From<Memory> for PathFault {
    ghost from_gives = { λ _ e. e ≡ Memory };

    fn from(_e: Memory) -> PathFault {
        PathFault::Memory
    }
}

/// Why a document is not a filter, not an update and no other expression.
#[derive(Clone, Copy, Debug, PartialEq, Eq)]
pub enum ParseFault {
    /// A name that begins with `$` is not an operator in its position.
    UnknownOperator,
    /// An operand does not have the form that its operator takes.
    BadOperand,
    /// A name is not a path.
    Path(PathFault),
    /// Expressions are nested in more than 100 levels.
    Deep,
    /// Out of memory.
    Memory,
}

impl From<Memory> for ParseFault {
    ghost use Rattle.field_paths.specs.declared.path.ParseFault.TheVariants as faults;

    ghost from_gives = { λ _ e. e ≡ faults.Memory };

    fn from(_e: Memory) -> ParseFault {
        ParseFault::Memory
    }
}

impl<T: Drop> From<AllocFailed<T>> for ParseFault {
    ghost use Rattle.field_paths.specs.declared.path.ParseFault.TheVariants as faults;

    ghost from_gives = { λ _ e. e ≡ faults.Memory };

    fn from(_e: AllocFailed<T>) -> ParseFault {
        ParseFault::Memory
    }
}

/// The parts of a path. Most paths have one, which takes no memory in addition to the path.
#[derive(Drop)]
enum Parts {
    One(Text),
    Several(Vec<Text>),
}

/// A path: the names of the fields from the outermost inwards.
#[derive(Drop)]
pub struct Path {
    parts: Parts,
}

impl Model for Path {
    ghost use Rattle.std.specs.Prelude.{List, ℕ};

    ghost Value = { List (List ℕ) };

    ghost use Rattle.field_paths.specs.Parts.{parts_in};

    ghost view = { λ p. parts_in p.parts };

    ghost use Rattle.query_model.specs.Paths.{IsPath};

    ghost invariant = { λ p. IsPath (parts_in p.parts) };
}

impl Path {
    /// Returns the path that a name is. Returns `Empty`, `Digits` or `Dollar` for the first part that has such a fault, `Long` where none has and there are
    /// more than 100 parts, and `Memory` if memory runs out.
    pub fn parse(alloc: Global, name: &str) -> Result<Path, PathFault>
        ensures path { IfOk result (λ p. read_path name.now ≡ Ok p) }
        ensures empty { (result ≡ Err Empty) ↔ (read_path name.now ≡ Err empty_part) }
        ensures digits { (result ≡ Err Digits) ↔ (read_path name.now ≡ Err digits_part) }
        ensures dollar { (result ≡ Err Dollar) ↔ (read_path name.now ≡ Err dollar_part) }
        ensures long { (result ≡ Err Long) ↔ (read_path name.now ≡ Err too_long) }
    {
        if let Some(fault) = fault_of(name) {
            return Err(fault);
        }
        let parts = parts_in(alloc, name)?;
        Ok(Path { parts })
    }

    /// Returns the parts, outermost first. There is at least one.
    #[tactic(auto, using(query_model::proofs::Names::path_not_empty))]
    pub fn parts(&self) -> &[Text]
        ensures parts { result.now ≡ self.now }
        ensures read { IsPath self.now }
        ensures some { 0 < length self.now }
    {
        match &self.parts {
            Parts::One(part) => slice::from_ref(part),
            Parts::Several(parts) => parts.as_slice(),
        }
    }
}

/// Returns the path that a name is, for a parser: where [`Path::parse`] returns an error, this returns `Path` with that fault, or `Memory`.
pub fn parse_path(alloc: Global, name: &str) -> Result<Path, ParseFault>
    ensures gives { Gives (λ p. p) result (result_map_both (λ path. path) path_fault (read_path name.now)) }
{
    match Path::parse(alloc, name) {
        Ok(path) => Ok(path),
        Err(PathFault::Empty) => Err(ParseFault::Path(PathFault::Empty)),
        Err(PathFault::Digits) => Err(ParseFault::Path(PathFault::Digits)),
        Err(PathFault::Dollar) => Err(ParseFault::Path(PathFault::Dollar)),
        Err(PathFault::Long) => Err(ParseFault::Path(PathFault::Long)),
        Err(PathFault::Memory) => Err(ParseFault::Memory),
    }
}

// Returns whether each byte is a digit.
fn has_digits_only(bytes: &[u8]) -> bool
    ensures { result ≡ all_ascii_digits bytes.now }
{
    for b in bytes {
        if !b.is_ascii_digit() {
            return false;
        }
    }
    true
}

// Returns the fault of one part, if it has one.
fn part_fault(part: &str) -> Option<PathFault>
    ensures { result ≡ option_map shown_as (part_fault part.now) }
{
    let bytes = part.as_bytes();
    let Some(first) = bytes.first() else {
        return Some(PathFault::Empty);
    };
    if has_digits_only(bytes) {
        Some(PathFault::Digits)
    } else if *first == b'$' {
        Some(PathFault::Dollar)
    } else {
        None
    }
}

// Returns why a name is not a path, or none if it is one. It takes no memory.
fn fault_of(name: &str) -> Option<PathFault>
    ensures { result ≡ option_map shown_as (result_err (read_path name.now)) }
{
    let mut rest = name;
    let mut dots = 0usize;
    'parts: while let Some((part, others)) = rest.split_once('.') {
        if let Some(fault) = part_fault(part) {
            return Some(fault);
        }
        dots += 1;
        rest = others;
    }
    match part_fault(rest) {
        Some(fault) => Some(fault),
        None => length_fault(dots),
    }
}

// Returns the fault of a path with this number of dots, if it has one.
fn length_fault(dots: usize) -> Option<PathFault>
    ensures { result ≡ (if nat_lt dots most_parts then None else Some Long) }
{
    if dots < MOST_PARTS {
        None
    } else {
        Some(PathFault::Long)
    }
}

// Returns the parts of a name.
fn parts_in(alloc: Global, name: &str) -> Result<Parts, Memory>
    ensures { IfOk result (λ parts. parts_in parts ≡ parts_of name.now) }
{
    match name.split_once('.') {
        None => Ok(Parts::One(Text::of(alloc, name)?)),
        Some(_) => Ok(Parts::Several(split(alloc, name)?)),
    }
}

// Returns the parts of a name, as a list without room for more.
fn split(alloc: Global, name: &str) -> Result<Vec<Text>, Memory>
    ensures { IfOk result (λ parts. parts.items ≡ parts_of name.now) }
{
    let mut parts = Vec::new(alloc);
    let mut rest = name;
    'parts: while let Some((part, others)) = rest.split_once('.') {
        parts.push(Text::of(alloc, part)?)?;
        rest = others;
    }
    parts.push(Text::of(alloc, rest)?)?;
    parts.shrink_to_fit();
    Ok(parts)
}
