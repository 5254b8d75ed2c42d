//! The program `dash IMAGE WORDS..`: the top call over the image's file, standard input, standard output and the
//! fuses of its callers. It ends with the top call's status. What is proved of it is what the top call's contract says.
//! Where that status is not 0, a line on standard error says what to do about it.
#![tactic(auto)]

mod image_words;
mod number;
mod refusal;
mod script_words;
mod wanting;

use command_line::{Heard, parted, program_of, purpose_of, received};
use dash_top::{DONE, NO_MEMORY, dash_run};
use outside::{FileStore, Fuses, StdSink, StdSource};
use refusal::Refusal;
use std::process::ExitCode;
use wanting::Wanting;

fn main(rt: HostRuntime) -> ExitCode {
    let Ok(arguments) = received(&rt) else {
        let _ = rt.eprintln(Wanting { what: "its words" });
        return ExitCode::from(NO_MEMORY);
    };
    let (path, words) = parted(&arguments);
    let purpose = purpose_of(words);
    let Ok(mut image) = FileStore::new(&rt, rt.alloc(), path, purpose, number::drawn(&rt)) else {
        let _ = rt.eprintln(Wanting {
            what: "the image's path",
        });
        return ExitCode::from(NO_MEMORY);
    };
    let mut input = StdSource::new(rt.stdin());
    let mut out = Heard::new(StdSink::new(rt.stdout()));
    let mut gates = Fuses::new();
    let status = dash_run(
        &rt,
        rt.alloc(),
        words,
        &mut image,
        &mut input,
        &mut out,
        &mut gates,
    );
    if status != DONE {
        let _ = rt.eprintln(Refusal {
            status,
            program: program_of(&arguments),
            is_text: !arguments.is_empty(),
            path: path,
            line: out.line(),
            image: image.trouble(),
            input: input.trouble,
            out: out.inner.trouble,
        });
    }
    ExitCode::from(status)
}
