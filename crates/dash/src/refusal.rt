// What is told on standard error where a call was not done: one line, which says what to do. It carries no promise.
use crate::image_words::{damage_words, image_words};
use crate::script_words::script_words;
use crate::wanting::GIVE_MORE;
use dash_top::{BAD_IMAGE, BAD_SCRIPT, BAD_WORDS, SINK_FAILED, SOURCE_FAILED, STORE_FAILED};
use outside::Trouble;
use std::{fmt, io};

/// A call that was not done, with all that is known of it.
#[derive(Drop)]
pub struct Refusal<'a> {
    /// The status, which is not 0.
    pub status: u8,
    /// The name by which the program was called.
    pub program: &'a str,
    /// Whether its arguments are text.
    pub is_text: bool,
    /// The image's path.
    pub path: &'a str,
    /// The line on standard output.
    pub line: &'a str,
    /// Why the image's file failed, if it did.
    pub image: Option<Trouble>,
    /// Why standard input failed, if it did.
    pub input: Option<io::Error>,
    /// Why standard output failed, if it did.
    pub out: Option<io::Error>,
}

impl<'a> Refusal<'a> {
    // The forms of the words, with their ranges.
    fn forms<W: fmt::Write>(&self, f: &mut fmt::Formatter<W>) -> fmt::Result {
        let program = self.program;
        let what = if self.is_text {
            "these words are none of"
        } else {
            "one of these words is no UTF-8 text, which no command takes; the commands are"
        };
        write!(
            f,
            "dash: {what}: {program} IMAGE format SEGMENTS DEPTH KIND (1 to 16384, 0 to 16, 0 or 1), {program} IMAGE play or {program} IMAGE serve (with a script as standard input), {program} IMAGE check, {program} IMAGE list, {program} IMAGE storm SEED SESSIONS CALLS (a number below 2^64, 1 to 1000, 1 to 10000); IMAGE is the path of the image's file, as in {program} a.img format 1 0 0"
        )
    }

    // A bad script: which line, and what is wrong with it.
    fn script<W: fmt::Write>(&self, f: &mut fmt::Formatter<W>) -> fmt::Result {
        let path = self.path;
        let fault = self.line.strip_prefix("fault script ").unwrap_or("");
        let (kind, place) = fault.split_once(' ').unwrap_or((fault, ""));
        let words = script_words(kind);
        match place {
            "line 0" => write!(f, "dash: {path} is as it was; the script: {words}"),
            _ => write!(f, "dash: {path} is as it was; the script, {place}: {words}"),
        }
    }

    fn image<W: fmt::Write>(&self, f: &mut fmt::Formatter<W>) -> fmt::Result {
        let path = self.path;
        let fault = self.line.strip_prefix("fault image ").unwrap_or("");
        match damage_words(fault) {
            Some(words) => write!(
                f,
                "dash: {path}: {words}, so it is damaged: use an earlier copy of it"
            ),
            None => {
                let words = image_words(fault);
                write!(f, "dash: {path}: {words}")
            }
        }
    }

    // What the system refused, and its reason where it gave one.
    fn stream<W: fmt::Write>(
        &self,
        what: &str,
        reason: Option<io::Error>,
        then: &str,
        f: &mut fmt::Formatter<W>,
    ) -> fmt::Result {
        let path = self.path;
        match reason {
            Some(reason) => write!(f, "dash: {path}: {what}: {reason}; {then}"),
            None => write!(f, "dash: {path}: {what}; {then}"),
        }
    }

    fn store<W: fmt::Write>(&self, f: &mut fmt::Formatter<W>) -> fmt::Result {
        let (program, path) = (self.program, self.path);
        if path.is_empty() {
            return f.write_str(
                "dash: the image's path is empty: give the name of its file, as a.img",
            );
        }
        match self.image {
            Some(Trouble::Missing) => write!(
                f,
                "dash: {path}: there is no such file: give the path of an image, or make one, by {program} '{path}' format 1 0 0"
            ),
            Some(trouble) => write!(f, "dash: {path}: {trouble}"),
            None => write!(f, "dash: {path}: its file failed"),
        }
    }
}

impl<'a> fmt::Display for Refusal<'a> {
    fn fmt<W: fmt::Write>(&self, f: &mut fmt::Formatter<W>) -> fmt::Result {
        match self.status {
            BAD_WORDS => self.forms(f),
            BAD_SCRIPT => self.script(f),
            BAD_IMAGE => self.image(f),
            SOURCE_FAILED => self.stream(
                "standard input could not be read",
                self.input,
                "the image is as it was: give a script, as by <FILE",
                f,
            ),
            SINK_FAILED => self.stream(
                "standard output could not be written",
                self.out,
                "check, list and storm may be run again; a play or a serve may have stored its image all the same, so see by list before it is played again",
                f,
            ),
            STORE_FAILED => self.store(f),
            _ => {
                let path = self.path;
                write!(
                    f,
                    "dash: {path}: memory was wanting, and the image is as it was: {}, or take a shorter script, or a storm of fewer calls",
                    GIVE_MORE
                )
            }
        }
    }
}
