// The program msar: a Markov-switching autoregression on a series, by a model, both from files. docs/MODEL.md has the files' grammar.
#![tactic(auto)]

mod commands;

use arrayvec::ArrayVec;
use host_io::EprintBytes;
use msar_args::{Call, Command, Options};
use msar_files::csv::Columns;
use msar_files::model::Own;
use msar_files::opened;
use msar_files::readings::Readings;
use std::io::Input;
use std::rt::{Env, Files};
use text_model::Model;

// The word of the command line with this number; empty where none is given.
fn word(rt: &impl Env, i: Option<usize>) -> ArrayVec<u8, 4096> {
    let mut word = ArrayVec::new();
    if let Some(i) = i {
        let mut bytes = host_io::buffer();
        let n = host_io::arg(rt, i, &mut bytes);
        let _ = word.try_extend_from_slice(&bytes[..n]);
    }
    word
}

// ---- on a series

// How the file's columns are asked for, by these words, if it has columns.
fn columns_of<'a>(o: Options, name: &'a [u8], kept: &'a [u8]) -> Option<Columns<'a>> {
    o.column?;
    Some(Columns {
        name,
        kept: o.keep.map(|_| kept),
        separator: o.separator,
        heading: o.heading,
    })
}

// The readings of the file, and what the command makes of them.
fn on_series(
    rt: &(impl Env + Files + Input + Print + EprintBytes),
    call: Call,
    model: &Model,
    own: &[u8],
) {
    let o = call.options;
    let path = word(rt, o.series);
    let Some(mut input) = opened(rt, path.as_slice()) else {
        return;
    };
    let name = word(rt, o.column);
    let kept = word(rt, o.keep);
    let columns = columns_of(o, name.as_slice(), kept.as_slice());
    let mut readings = Readings::none();
    let read = msar_files::series::read(rt, &mut input, path.as_slice(), columns, &mut readings);
    if let Some(reading) = read {
        commands::on_series(rt, call, model, own, reading, &readings);
    }
}

// ---- on a model

fn by_command(
    rt: &(impl Env + Files + Input + Print + EprintBytes),
    call: Call,
    model: &Model,
    own: &[u8],
) {
    match call.command {
        Command::Check => msar_commands::check(rt, model.spec, model.params),
        Command::Durations => msar_commands::durations(
            rt,
            model.spec,
            model.params,
            call.options.digits,
        ),
        _ => on_series(rt, call, model, own),
    }
}

// The MODEL's own text goes with it; nothing of it where it found no room.
fn text_of<'a>(rt: &impl EprintBytes, own: &'a Own) -> &'a [u8] {
    match own {
        Some(text) => text.as_slice(),
        None => {
            msar_say::note(
                rt,
                b"the MODEL has more than 16384 bytes: a fit writes it without its comments",
            );
            b""
        }
    }
}

fn are_both_input(rt: &impl Env, o: Options) -> bool {
    match (o.model, o.series) {
        (Some(i), Some(j)) => msar_args::is_input(rt, i) && msar_args::is_input(rt, j),
        _ => false,
    }
}

fn on_model(rt: &(impl Env + Files + Input + Print + EprintBytes), call: Call) {
    let o = call.options;
    if are_both_input(rt, o) {
        msar_say::error(rt, b"MODEL and SERIES cannot both be standard input");
        return;
    }
    let path = word(rt, o.model);
    let Some(mut input) = opened(rt, path.as_slice()) else {
        return;
    };
    let mut own = Some(ArrayVec::new());
    let read = msar_files::model::read(rt, &mut input, path.as_slice(), &mut own);
    drop(input);
    if let Some(model) = read {
        by_command(rt, call, &model, text_of(rt, &own));
    }
}

// `start` has no MODEL: an empty one stands in its place, which it does not look at.
fn without_model(rt: &(impl Env + Files + Input + Print + EprintBytes), call: Call) {
    let model = text_model::so_far(text_model::start());
    on_series(rt, call, &model, b"");
}

fn main(rt: HostRuntime) {
    match msar_args::read(&rt) {
        Err(fault) => fault.say(&rt),
        Ok(call) => match call.command {
            Command::Help => msar_args::help::help(&rt),
            Command::Version => msar_args::help::version(&rt),
            Command::Start => without_model(&rt, call),
            _ => on_model(&rt, call),
        },
    }
}
