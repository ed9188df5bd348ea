//! Which symbols of a file are functions.

ghost use Rattle.std.specs.Prelude.{◌≡◌, ◌≤◌, ◌+◌, ◌/◌, length, map, option_map, IfOk, OnOk};
ghost use Rattle.std.specs.List.{AllByRecursion};
ghost use Rattle.sq_elf.specs.Text.{text_of};
ghost use Rattle.sq_names.specs.Functions.{is_function, function_of, strings_of, functions_before, functions_of, followed, IsNamedIn};
ghost use Rattle.sq_names.specs.Names.{seen};

use crate::names::{Function, Names};
use crate::symbol::{SYMBOL, Symbol, string_at, symbol_at};
use crate::table::{is_readable, symbol_table};
use sq_elf::{Elf, Section, Text, is_text_word};
use sq_num::Memory;
use std::alloc::Global;

/// The low four bits of st_info.
const TYPE: u32 = 15;

/// STT_FUNC
const FUNCTION: u32 = 2;

/// Whether the symbol is a function that begins at a word of text.
fn is_function(text: Text, symbol: Symbol) -> bool
    ensures { result ≡ is_function text symbol }
{
    symbol.info & TYPE == FUNCTION && is_text_word(text, symbol.value)
}

/// The function that the symbol names.
fn function_of<'a>(text: Text, strings: &'a [u8], symbol: Symbol) -> Option<Function<'a>>
    ensures { option_map seen result ≡ function_of text strings.now symbol }
{
    if !is_function(text, symbol) {
        return None;
    }
    match string_at(strings, symbol.name) {
        Some(name) if !name.is_empty() => Some(Function {
            value: symbol.value,
            name,
        }),
        _ => None,
    }
}

/// The string table of a symbol table.
fn strings_of<'a>(elf: &Elf<'a>, table: Section) -> &'a [u8]
    ensures { result.now ≡ strings_of elf.now table }
{
    match elf.contents(table.link) {
        Some(strings) => strings,
        None => &[],
    }
}

/// Appends the function, where there is one.
fn push<'a>(functions: &mut Vec<Function<'a>>, function: Option<Function<'a>>) -> Result<(), Memory>
    ensures value { OnOk result (map seen functions.new.items ≡ followed (map seen functions.old.items) (option_map seen function.entry)) }
    ensures few { OnOk result (length functions.new.items ≤ length functions.old.items + 1) }
{
    if let Some(function) = function {
        functions.push(function)?;
    }
    Ok(())
}

/// The functions that the symbols of a table name.
#[tactic(auto, unfolding(crate::specs::Functions::functions_before))]
fn functions_in<'a>(
    alloc: Global,
    elf: &Elf<'a>,
    table: Section,
) -> Result<Vec<Function<'a>>, Memory>
    ensures value { IfOk result (λ functions. map seen functions.items ≡ functions_before elf.now table (table.size / 16)) }
    ensures few { IfOk result (λ functions. length functions.items ≤ table.size / 16) }
{
    let text = elf.text();
    let strings = strings_of(elf, table);
    let mut functions = Vec::new(alloc);
    for number in 0..table.size / SYMBOL {
        let symbol = symbol_at(elf.bytes(), table, number);
        push(&mut functions, function_of(text, strings, symbol))?;
    }
    Ok(functions)
}

/// The functions of the file, in the order of their symbols.
#[tactic(auto, using(crate::proofs::Named::all_named))]
pub fn function_names<'a>(alloc: Global, elf: &Elf<'a>) -> Result<Names<'a>, Memory>
    ensures value { IfOk result (λ names. names ≡ functions_of elf.now) }
    ensures each { AllByRecursion (IsNamedIn (text_of elf.now)) (functions_of elf.now) }
{
    match symbol_table(elf) {
        Some(table) if is_readable(elf, table) => {
            Ok(Names::new(functions_in(alloc, elf, table)?))
        }
        _ => Ok(Names::new(Vec::new(alloc))),
    }
}
