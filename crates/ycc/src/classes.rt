//! The texts of a parser in C++.

use crate::ending::Ending;
use crate::names::{Names, Text};
use std::alloc::Global;
use ycxx::Cxx;
use yskeleton::Skeleton;

/// From this version on bison writes no files that say where older ones went.
const WITHOUT_OLD: usize = 30_200;

/// What stands in the files of older parsers, which have nothing any more.
const OLD_STACK: &[u8] = b"/* A parser in C++ has its stack itself. */\n";

const OLD_POSITION: &[u8] = b"/* The places of a parser in C++ stand in one file. */\n#include ";

/// Adds the files that bison writes for grammars of older versions.
fn add_old<'a>(
    alloc: Global,
    has_places: bool,
    names: &'a Names,
    texts: &mut Vec<Text<'a>>,
) -> Result<(), Ending> {
    let path = names.stack.as_str();
    let bytes = Vec::from_slice(alloc, OLD_STACK)?;
    texts.push(Text { path, bytes })?;
    if has_places {
        let path = names.position.as_str();
        let mut bytes = Vec::from_slice(alloc, OLD_POSITION)?;
        bytes.extend_from_slice(names.places_name.as_bytes())?;
        bytes.push(b'\n')?;
        texts.push(Text { path, bytes })?;
    }
    Ok(())
}

/// Adds the parser, its header where it has one, and the file of its places. With these rules bison
/// would reduce by default, where its lists are wanted.
pub fn add_class<'a>(
    alloc: Global,
    mut skeleton: Skeleton<'a>,
    has_header: bool,
    names: &'a Names,
    defaults: &[usize],
    texts: &mut Vec<Text<'a>>,
) -> Result<(), Ending> {
    let options = &skeleton.parts.options;
    let is_own = skeleton.style.locations && options.location_type.is_none();
    let has_places = is_own && !names.places.is_empty();
    let header = has_header.then_some(names.header_name.as_str());
    let places = has_places.then_some(names.places_name.as_str());
    let path = names.parser.as_str();
    let bytes = Cxx::new(skeleton, header, places).parser(alloc, defaults)?;
    texts.push(Text { path, bytes })?;
    if has_header {
        let path = names.header.as_str();
        skeleton.own_path = path;
        let bytes = Cxx::new(skeleton, header, places).header(alloc)?;
        texts.push(Text { path, bytes })?;
    }
    if has_places {
        let path = names.places.as_str();
        let bytes = Cxx::new(skeleton, header, places).places(alloc, path)?;
        texts.push(Text { path, bytes })?;
    }
    if has_header && options.required < WITHOUT_OLD {
        add_old(alloc, has_places, names, texts)?;
    }
    Ok(())
}
