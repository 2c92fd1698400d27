//! The files that are made of a grammar file.

use crate::called::called_by;
use crate::classes::add_class;
use crate::ending::{Ending, File, outside, say, tell};
use crate::examples::signs_of;
use crate::messages::speech_of;
use crate::names::{Names, Text, names_of};
use crate::policy::policy_of;
use crate::reading::Reading;
use crate::warnings::{import_of, tell_found};
use crate::words::Given;
use std::alloc::Global;
use ycode::{Code, code_of};
use yfiles::output::Output;
use yfiles::same::clash_of;
use yfiles::writing::write_over;
use yfindings::bodies::bodies_of;
use yfindings::finding::Seen;
use yfindings::levels::givers_of;
use yfindings::walk::Walk;
use yforeign::groups::groups_of;
use ylayouts::layout::{Layout, layout_of};
use ylayouts::manner::{ASCII, Manner};
use ylayouts::report::{Report, Things};
use ylayouts::spare::{Spares, spares_of};
use yparts::options::{Header, Options};
use yskeleton::{Mode, Numbering, Skeleton, Wishes, default_rules, style_of};
use ytables::{Link, Tables};

/// The report or the table that `yacc` writes.
fn text_of(alloc: Global, tables: &Tables, is_report: bool) -> Result<Vec<u8>, Ending> {
    let mut link = Link::new(Vec::new(alloc));
    let written = if is_report {
        tables.write_report(&mut link)
    } else {
        tables.write_table(&mut link)
    };
    match written {
        Ok(()) => Ok(link.into_inner()),
        Err(_) => Err(Ending::Memory),
    }
}

/// What is asked for of the texts.
fn wishes_of(given: &Given<'_>, options: &Options<'_>) -> Wishes {
    let is_bison = given.bison || options.is_bison;
    Wishes {
        lines: !given.no_lines && !options.no_lines,
        debug: given.trace || options.trace,
        mode: if is_bison { Mode::Bison } else { Mode::Byacc },
        is_yacc: given.yacc || options.is_yacc,
        lists: given.lists,
        speaks: given.messages.is_some(),
        policy: policy_of(options, is_bison, given.messages.is_some()),
    }
}

/// Adds a parser in C, and its header where it has one.
fn add_plain<'a>(
    alloc: Global,
    mut skeleton: Skeleton<'a>,
    has_header: bool,
    names: &'a Names,
    defaults: &[usize],
    texts: &mut Vec<Text<'a>>,
) -> Result<(), Ending> {
    let path = names.parser.as_str();
    let bytes = skeleton.parser(alloc, defaults)?;
    texts.push(Text { path, bytes })?;
    if has_header {
        let path = names.header.as_str();
        skeleton.own_path = path;
        let bytes = skeleton.header(alloc)?;
        texts.push(Text { path, bytes })?;
    }
    Ok(())
}

/// The texts that are wanted.
fn texts_of<'a>(
    alloc: Global,
    given: &Given<'_>,
    tables: &Tables,
    skeleton: Skeleton<'a>,
    names: &'a Names,
) -> Result<Vec<Text<'a>>, Ending> {
    let options = &skeleton.parts.options;
    let mut defaults = Vec::new(alloc);
    if skeleton.style.lists() {
        defaults = default_rules(alloc, tables)?;
    }
    let mut texts = Vec::new(alloc);
    let has_header = given.define || options.header != Header::No;
    if options.is_cxx() {
        add_class(alloc, skeleton, has_header, names, &defaults, &mut texts)?;
    } else {
        add_plain(alloc, skeleton, has_header, names, &defaults, &mut texts)?;
    }
    let is_wanted = given.verbose || options.verbose;
    if is_wanted && !skeleton.style.is_bison() {
        let path = names.report.as_str();
        let bytes = text_of(alloc, tables, true)?;
        texts.push(Text { path, bytes })?;
    }
    if given.table.is_some() {
        let path = names.table.as_str();
        let bytes = text_of(alloc, tables, false)?;
        texts.push(Text { path, bytes })?;
    }
    Ok(texts)
}

/// Adds the graph as byacc draws it.
fn add_old_graph<'a>(
    alloc: Global,
    tables: &Tables,
    skeleton: &Skeleton<'_>,
    names: &'a Names,
    texts: &mut Vec<Text<'a>>,
) -> Result<(), Ending> {
    let called = called_by(alloc, skeleton, false)?;
    let manner = Manner {
        names: &called,
        signs: ASCII,
    };
    let arrays = (skeleton.code, skeleton.states);
    let layout = layout_of(alloc, tables, manner, arrays, skeleton.numbering);
    let (path, bytes) = (names.old_graph.as_str(), layout.old_graph(&names.stem)?);
    texts.push(Text { path, bytes })?;
    Ok(())
}

/// Adds reports as bison writes them: a text, a page.
fn add_reports<'a>(
    (has_text, has_page): (bool, bool),
    things: Things,
    layout: &Layout<'_>,
    skeleton: &Skeleton<'_>,
    seen: Option<&Seen<'_>>,
    names: &'a Names,
    texts: &mut Vec<Text<'a>>,
) -> Result<(), Ending> {
    let alloc = layout.alloc;
    let (mut givers, mut spares) = (Vec::new(alloc), Spares::none(alloc));
    if let Some(seen) = seen {
        givers = givers_of(seen, &bodies_of(seen)?)?;
        spares = spares_of(seen, layout.numbering, &givers)?;
    }
    let report = Report {
        layout,
        parts: skeleton.parts,
        spares: &spares,
        givers: &givers,
        seen,
        things,
    };
    for (is_wanted, path, is_page) in [
        (has_text, names.report.as_str(), false),
        (has_page, names.page.as_str(), true),
    ] {
        if is_wanted {
            let bytes = report.text(skeleton.path, is_page)?;
            texts.push(Text { path, bytes })?;
        }
    }
    Ok(())
}

/// Adds the graph and the reports as bison writes them.
fn add_shown<'a>(
    rt: &HostRuntime,
    given: &Given<'_>,
    tables: &Tables,
    skeleton: &Skeleton<'_>,
    seen: Option<&Seen<'_>>,
    names: &'a Names,
    texts: &mut Vec<Text<'a>>,
) -> Result<(), Ending> {
    let alloc = rt.alloc();
    let called = called_by(alloc, skeleton, true)?;
    let manner = Manner {
        names: &called,
        signs: signs_of(rt),
    };
    let arrays = (skeleton.code, skeleton.states);
    let layout = layout_of(alloc, tables, manner, arrays, skeleton.numbering);
    if given.graph.is_some() {
        let (path, bytes) = (names.graph.as_str(), layout.graph(skeleton.path)?);
        texts.push(Text { path, bytes })?;
    }
    let wanted = (has_report(given, skeleton), given.page.is_some());
    if wanted.0 || wanted.1 {
        add_reports(wanted, given.things, &layout, skeleton, seen, names, texts)?;
    }
    Ok(())
}

/// Whether a report is wanted, and it is bison's.
fn has_report(given: &Given<'_>, skeleton: &Skeleton<'_>) -> bool {
    let (parts, style) = (skeleton.parts, skeleton.style);
    (given.verbose || parts.options.verbose) && style.is_bison()
}

/// Adds what is shown of the automaton of a file to texts.
fn add_all_shown<'a>(
    rt: &HostRuntime,
    given: &Given<'_>,
    tables: &Tables,
    skeleton: &Skeleton<'_>,
    seen: Option<&Seen<'_>>,
    names: &'a Names,
    texts: &mut Vec<Text<'a>>,
) -> Result<(), Ending> {
    if given.old_graph {
        add_old_graph(rt.alloc(), tables, skeleton, names, texts)?;
    }
    if has_report(given, skeleton) || given.page.is_some() || given.graph.is_some() {
        add_shown(rt, given, tables, skeleton, seen, names, texts)?;
    }
    Ok(())
}

/// Writes texts to their files, where they are to be written, unless one would be written over
/// another that is read or written: then that is said.
fn write_all(rt: &HostRuntime, given: &Given<'_>, texts: &[Text<'_>]) -> Result<(), Ending> {
    if given.dry {
        return Ok(());
    }
    let mut outputs = Vec::new(rt.alloc());
    for text in texts {
        outputs.push(Some(text.path))?;
    }
    let grammar = given.grammar;
    let (messages, spec) = (
        given.messages.unwrap_or(grammar),
        given.spec.unwrap_or(grammar),
    );
    let inputs = [grammar, messages, spec];
    if let Some(clash) = clash_of(rt, &outputs, &inputs)? {
        let mut out = Output::new(rt.alloc());
        out.put("ycc: ");
        out.show(clash);
        out.line("");
        return Err(say(rt, out, Ending::Arguments));
    }
    for text in texts {
        if let Err(error) = write_over(rt, text.path, &text.bytes) {
            return Err(outside(rt, "write", text.path, &error));
        }
    }
    Ok(())
}

/// Says whose order and names there are, where that is asked for; messages in C++ are refused.
fn begin(
    rt: &HostRuntime,
    given: &Given<'_>,
    file: &File,
    (is_cxx, is_bison): (bool, bool),
) -> Result<(), Ending> {
    if given.messages.is_some() && is_cxx {
        tell(rt, &["ycc: --messages: a parser in C++ has none"]);
        return Err(Ending::Refused);
    }
    if given.verbose {
        let path = file.path.as_str();
        let whose = if is_bison { "bison" } else { "byacc" };
        tell(rt, &["ycc: ", path, ": order and names of ", whose]);
    }
    Ok(())
}

/// Tells what is found in a file, makes all texts, and then writes their files.
fn tell_and_write<'a>(
    rt: &HostRuntime,
    given: &Given<'_>,
    file: &File,
    read: &Reading<'_>,
    skeleton: Skeleton<'a>,
    seen: Option<&Seen<'_>>,
    names: &'a Names,
) -> Result<(), Ending> {
    let is_bison = skeleton.style.is_bison();
    let is_sought = is_bison || given.kinds.ask_for_more();
    let is_shown = has_report(given, &skeleton) || given.page.is_some();
    let sought = if is_sought { seen } else { None };
    let is_told = tell_found(rt, (given.kinds, is_bison), file, read, &skeleton, sought)?;
    let mut texts = texts_of(rt.alloc(), given, &read.tables, skeleton, names)?;
    let shown = if is_shown { seen } else { None };
    add_all_shown(rt, given, &read.tables, &skeleton, shown, names, &mut texts)?;
    write_all(rt, given, &texts)?;
    match is_told && read.is_told {
        true => Ok(()),
        false => Err(Ending::Untold),
    }
}

/// Does so with a file that can be looked at.
fn finish_seen<'a, 's>(
    rt: &HostRuntime,
    given: &Given<'_>,
    file: &File,
    read: &Reading<'_>,
    skeleton: Skeleton<'a>,
    seen: &'s Seen<'s>,
    names: &'a Names,
) -> Result<(), Ending> {
    tell_and_write(rt, given, file, read, skeleton, Some(seen), names)
}

/// Does so with a file, which is looked at where that is needed.
fn finish<'a>(
    rt: &HostRuntime,
    given: &Given<'_>,
    file: &File,
    read: &Reading<'_>,
    skeleton: Skeleton<'a>,
    names: &'a Names,
) -> Result<(), Ending> {
    let (alloc, is_bison) = (rt.alloc(), skeleton.style.is_bison());
    let is_needed = is_bison || given.kinds.ask_for_more() || given.page.is_some();
    let own = import_of(rt, file, read, is_needed)?;
    let imported = read.imported.as_ref().or(own.as_ref());
    if let Some(imported) = imported {
        let groups = groups_of(alloc, &file.bytes, &imported.lexemes)?;
        let seen = Seen {
            alloc,
            source: &file.bytes,
            imported,
            groups: &groups,
            tables: &read.tables,
            parts: &read.parts,
        };
        return finish_seen(rt, given, file, read, skeleton, &seen, names);
    }
    tell_and_write(rt, given, file, read, skeleton, None, names)
}

/// Makes all files of a grammar file.
pub fn write_files<'x>(
    rt: &HostRuntime,
    given: &Given<'_>,
    file: &'x File,
    read: &'x Reading<'_>,
) -> Result<(), Ending> {
    let (alloc, path) = (rt.alloc(), file.path.as_str());
    let (tables, parts) = (&read.tables, &read.parts);
    let wishes = wishes_of(given, &parts.options);
    let is_bison = wishes.mode == Mode::Bison;
    begin(rt, given, file, (parts.options.is_cxx(), is_bison))?;
    let names = names_of(alloc, given, &parts.options, is_bison)?;
    let style = style_of(alloc, parts, wishes, given.prefix)?;
    let code = code_of(alloc, tables, wishes.policy)?;
    let speech = speech_of(rt, given, tables, &style)?;
    let grammar = tables.automaton().grammar();
    let numbering = Numbering::of(alloc, grammar, parts, &code, is_bison)?;
    let states = Walk::bison_numbers(alloc, tables, &numbering.order)?;
    let skeleton = Skeleton {
        path,
        own_path: names.parser.as_str(),
        grammar,
        parts,
        style: &style,
        code: &code,
        numbering: &numbering,
        states: &states,
        speech: speech.as_ref(),
    };
    finish(rt, given, file, read, skeleton, &names)
}
