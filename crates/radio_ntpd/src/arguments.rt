//! The arguments that the host gives a program: those after its name, as texts.
ghost use Rattle.std.specs.Prelude.{◌≡◌, IfErr, IfOk, IsOkAnd, Err, [], alloc_error, drop, map};
ghost use Rattle.std.specs.IoError.{error_kind};
ghost use Rattle.std.specs.String.{string_bytes};
ghost use Rattle.std.specs.Vec.Iter.{into_iter_items};

use std::alloc::{AllocError, Global};
use std::env::Args;
use std::io::{self, ErrorKind};

/// The arguments after the program's name. There are none where one of them is not UTF-8, since every valid argument is UTF-8.
pub fn arguments_of(alloc: Global, all: io::Result<Args>) -> Result<Vec<String>, AllocError>
    ensures given { IfOk all (λ args. IfOk result (λ given. given.items ≡ drop 1 (into_iter_items args))) }
    ensures memory { IfErr all (λ e. error_kind e ≡ ErrorKind.OutOfMemory → result ≡ Err alloc_error) }
    ensures no_text { IfErr all (λ e. (error_kind e ≡ ErrorKind.OutOfMemory → ⊥) →
        IsOkAnd result (λ given. given.items ≡ [])) }
{
    match all {
        Ok(all) => after_the_name(alloc, all),
        Err(error) => match error.kind() {
            ErrorKind::OutOfMemory => Err(AllocError),
            _ => Ok(Vec::new(alloc)),
        },
    }
}

// The arguments after the program's name.
fn after_the_name(alloc: Global, all: Args) -> Result<Vec<String>, AllocError>
    ensures { IfOk result (λ given. given.items ≡ drop 1 (into_iter_items all)) }
{
    let arguments = listed(alloc, all)?;
    Ok(without_first(arguments))
}

// All that the host gives.
fn listed(alloc: Global, all: Args) -> Result<Vec<String>, AllocError>
    ensures { IfOk result (λ given. given.items ≡ into_iter_items all) }
{
    let mut arguments = Vec::new(alloc);
    for argument in all {
        arguments.push(argument)?;
    }
    Ok(arguments)
}

fn without_first(arguments: Vec<String>) -> Vec<String>
    ensures { result.items ≡ drop 1 arguments.items }
{
    let mut arguments = arguments;
    if !arguments.is_empty() {
        arguments.remove(0);
    }
    arguments
}

/// The texts of arguments. It fails where there was no memory for the arguments, or there is none for the list.
pub fn texts_of<'a>(
    alloc: Global,
    arguments: &'a Result<Vec<String>, AllocError>,
) -> Result<Vec<&'a str>, AllocError>
    ensures { IfOk result (λ texts. IsOkAnd arguments.now (λ given.
        map (λ t. t.now) texts.items ≡ map (λ w. string_bytes w) given.items)) }
{
    match arguments {
        Ok(arguments) => listed_texts(alloc, arguments.as_slice()),
        Err(_) => Err(AllocError),
    }
}

// Arguments as their texts. It fails where there is no memory for the list.
fn listed_texts<'a>(alloc: Global, arguments: &'a [String]) -> Result<Vec<&'a str>, AllocError>
    ensures { IfOk result (λ texts. map (λ t. t.now) texts.items ≡ map (λ w. string_bytes w) arguments.now) }
{
    let mut texts = Vec::new(alloc);
    for argument in arguments {
        texts.push(argument.as_str())?;
    }
    Ok(texts)
}
