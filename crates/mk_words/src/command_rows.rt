// The rows of the table of commands, from words.
ghost use Rattle.std.specs.Prelude.{◌≡◌, IfOk};
ghost use Rattle.mk_words.specs.Commands.{budget_in, command_in, enum_all, file_in, held_number, limit_in, name_in, number_in, place_in, structures_in};
ghost use Rattle.mk_words.specs.Commands.{resume_all, resume_within, row_of_four, row_of_one, row_of_three, row_of_two, search_all, search_within, with_one, with_three, with_two};

use crate::Command;
use crate::command_parts::{file_in, name_in, number_in, place_in};
use mk_outside::{Bytes, Memory, Place};
use std::alloc::Global;

// The greatest number of a record or of a saved search.
const GREATEST: u32 = 999_999_999;

// How many hits are listed, or molecules drilled, at most.
const MOST: u32 = 10_000;

// How many structures are written at most.
const MOST_STRUCTURES: u32 = 1_000;

// The least and the greatest budget.
const LEAST_BUDGET: u32 = 2_048;

const GREATEST_BUDGET: u32 = 999_999_999;

/// The command that these words are, where they are one.
pub fn command_of(alloc: Global, words: &[Bytes]) -> Result<Option<Command>, Memory>
    ensures { IfOk result (λ command. command ≡ command_in words.now) }
{
    match words {
        [word] => Ok(row_of_one(word.as_slice())),
        [word, a] => row_of_two(alloc, word.as_slice(), a.as_slice()),
        [word, a, b] => row_of_three(alloc, word.as_slice(), a.as_slice(), b.as_slice()),
        [word, a, b, d] => {
            row_of_four(
                alloc,
                word.as_slice(),
                a.as_slice(),
                b.as_slice(),
                d.as_slice(),
            )
        }
        _ => Ok(None),
    }
}

fn row_of_one(word: &[u8]) -> Option<Command>
    ensures { result ≡ row_of_one word.now }
{
    if word == b"list".as_slice() {
        return Some(Command::List);
    }
    None
}

fn row_of_two(alloc: Global, word: &[u8], a: &[u8]) -> Result<Option<Command>, Memory>
    ensures { IfOk result (λ command. command ≡ row_of_two word.now a.now) }
{
    if word == b"load".as_slice() {
        return load_row(alloc, a);
    }
    if word == b"remove".as_slice() {
        return Ok(remove_row(a));
    }
    if word == b"forget".as_slice() {
        return forget_row(alloc, a);
    }
    if word == b"show".as_slice() {
        return Ok(show_row(a));
    }
    if word == b"table".as_slice() {
        return table_row(alloc, a);
    }
    Ok(None)
}

fn row_of_three(alloc: Global, word: &[u8], a: &[u8], b: &[u8]) -> Result<Option<Command>, Memory>
    ensures { IfOk result (λ command. command ≡ row_of_three word.now a.now b.now) }
{
    if word == b"match".as_slice() {
        return match_row(alloc, a, b);
    }
    if word == b"replace".as_slice() {
        return replace_row(alloc, a, b);
    }
    if word == b"query".as_slice() {
        return query_row(alloc, a, b);
    }
    if word == b"search".as_slice() {
        return search_row(alloc, a, b);
    }
    if word == b"resume".as_slice() {
        return Ok(resume_row(a, b));
    }
    if word == b"drill".as_slice() {
        return Ok(drill_row(a, b));
    }
    if word == b"enum".as_slice() {
        return enum_row(alloc, a, b);
    }
    Ok(None)
}

fn row_of_four(
    alloc: Global,
    word: &[u8],
    a: &[u8],
    b: &[u8],
    d: &[u8],
) -> Result<Option<Command>, Memory>
    ensures { IfOk result (λ command. command ≡ row_of_four word.now a.now b.now d.now) }
{
    if word == b"search".as_slice() {
        return search_within_row(alloc, a, b, d);
    }
    if word == b"resume".as_slice() {
        return Ok(resume_within_row(a, b, d));
    }
    if word == b"enum".as_slice() {
        return enum_from_row(alloc, a, b, d);
    }
    Ok(None)
}

fn match_row(alloc: Global, a: &[u8], b: &[u8]) -> Result<Option<Command>, Memory>
    ensures { IfOk result (λ command. command ≡ with_two Command.Match (file_in a.now) (file_in b.now)) }
{
    let Some(query) = file_in(alloc, a)? else {
        return Ok(None);
    };
    match file_in(alloc, b)? {
        Some(molecules) => Ok(Some(Command::Match { query, molecules })),
        None => Ok(None),
    }
}

fn load_row(alloc: Global, a: &[u8]) -> Result<Option<Command>, Memory>
    ensures { IfOk result (λ command. command ≡ with_one Command.Load (file_in a.now)) }
{
    match file_in(alloc, a)? {
        Some(file) => Ok(Some(Command::Load { file })),
        None => Ok(None),
    }
}

fn replace_row(alloc: Global, a: &[u8], b: &[u8]) -> Result<Option<Command>, Memory>
    ensures { IfOk result (λ command. command ≡ with_two Command.Replace (held_number a.now) (file_in b.now)) }
{
    let Some(number) = number_in(a, 1, GREATEST) else {
        return Ok(None);
    };
    match file_in(alloc, b)? {
        Some(file) => Ok(Some(Command::Replace { number, file })),
        None => Ok(None),
    }
}

fn remove_row(a: &[u8]) -> Option<Command>
    ensures { result ≡ with_one Command.Remove (held_number a.now) }
{
    match number_in(a, 1, GREATEST) {
        Some(number) => Some(Command::Remove { number }),
        None => None,
    }
}

fn query_row(alloc: Global, a: &[u8], b: &[u8]) -> Result<Option<Command>, Memory>
    ensures { IfOk result (λ command. command ≡ with_two Command.Query (name_in a.now) (file_in b.now)) }
{
    let Some(name) = name_in(alloc, a)? else {
        return Ok(None);
    };
    match file_in(alloc, b)? {
        Some(file) => Ok(Some(Command::Query { name, file })),
        None => Ok(None),
    }
}

fn forget_row(alloc: Global, a: &[u8]) -> Result<Option<Command>, Memory>
    ensures { IfOk result (λ command. command ≡ with_one Command.Forget (name_in a.now)) }
{
    match name_in(alloc, a)? {
        Some(name) => Ok(Some(Command::Forget { name })),
        None => Ok(None),
    }
}

fn search_row(alloc: Global, a: &[u8], b: &[u8]) -> Result<Option<Command>, Memory>
    ensures { IfOk result (λ command. command ≡ with_two search_all (name_in a.now) (limit_in b.now)) }
{
    let Some(name) = name_in(alloc, a)? else {
        return Ok(None);
    };
    match number_in(b, 1, MOST) {
        Some(limit) => Ok(Some(Command::Search {
            name,
            limit,
            budget: None,
        })),
        None => Ok(None),
    }
}

fn search_within_row(alloc: Global, a: &[u8], b: &[u8], d: &[u8]) -> Result<Option<Command>, Memory>
    ensures { IfOk result (λ command. command ≡ with_three search_within (name_in a.now) (limit_in b.now) (budget_in d.now)) }
{
    let Some(name) = name_in(alloc, a)? else {
        return Ok(None);
    };
    let Some(limit) = number_in(b, 1, MOST) else {
        return Ok(None);
    };
    match number_in(d, LEAST_BUDGET, GREATEST_BUDGET) {
        Some(budget) => Ok(Some(Command::Search {
            name,
            limit,
            budget: Some(budget),
        })),
        None => Ok(None),
    }
}

fn resume_row(a: &[u8], b: &[u8]) -> Option<Command>
    ensures { result ≡ with_two resume_all (held_number a.now) (limit_in b.now) }
{
    let Some(cursor) = number_in(a, 1, GREATEST) else {
        return None;
    };
    match number_in(b, 1, MOST) {
        Some(limit) => Some(Command::Resume {
            cursor,
            limit,
            budget: None,
        }),
        None => None,
    }
}

fn resume_within_row(a: &[u8], b: &[u8], d: &[u8]) -> Option<Command>
    ensures { result ≡ with_three resume_within (held_number a.now) (limit_in b.now) (budget_in d.now) }
{
    let Some(cursor) = number_in(a, 1, GREATEST) else {
        return None;
    };
    let Some(limit) = number_in(b, 1, MOST) else {
        return None;
    };
    match number_in(d, LEAST_BUDGET, GREATEST_BUDGET) {
        Some(budget) => Some(Command::Resume {
            cursor,
            limit,
            budget: Some(budget),
        }),
        None => None,
    }
}

fn show_row(a: &[u8]) -> Option<Command>
    ensures { result ≡ with_one Command.Show (held_number a.now) }
{
    match number_in(a, 1, GREATEST) {
        Some(number) => Some(Command::Show { number }),
        None => None,
    }
}

fn table_row(alloc: Global, a: &[u8]) -> Result<Option<Command>, Memory>
    ensures { IfOk result (λ command. command ≡ with_one Command.Table (name_in a.now)) }
{
    match name_in(alloc, a)? {
        Some(name) => Ok(Some(Command::Table { name })),
        None => Ok(None),
    }
}

fn drill_row(a: &[u8], b: &[u8]) -> Option<Command>
    ensures { result ≡ with_two Command.Drill (number_in 0 999999999 a.now) (limit_in b.now) }
{
    let Some(start) = number_in(a, 0, GREATEST) else {
        return None;
    };
    match number_in(b, 1, MOST) {
        Some(count) => Some(Command::Drill { start, count }),
        None => None,
    }
}

fn enum_row(alloc: Global, a: &[u8], b: &[u8]) -> Result<Option<Command>, Memory>
    ensures { IfOk result (λ command. command ≡ with_two enum_all (name_in a.now) (structures_in b.now)) }
{
    let Some(name) = name_in(alloc, a)? else {
        return Ok(None);
    };
    match number_in(b, 1, MOST_STRUCTURES) {
        Some(limit) => Ok(Some(Command::Enum {
            name,
            limit,
            from: Place::new(alloc),
        })),
        None => Ok(None),
    }
}

fn enum_from_row(alloc: Global, a: &[u8], b: &[u8], d: &[u8]) -> Result<Option<Command>, Memory>
    ensures { IfOk result (λ command. command ≡ with_three Command.Enum (name_in a.now) (structures_in b.now) (place_in d.now)) }
{
    let Some(name) = name_in(alloc, a)? else {
        return Ok(None);
    };
    let Some(limit) = number_in(b, 1, MOST_STRUCTURES) else {
        return Ok(None);
    };
    match place_in(alloc, d)? {
        Some(from) => Ok(Some(Command::Enum { name, limit, from })),
        None => Ok(None),
    }
}
